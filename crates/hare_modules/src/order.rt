//! The order in which faults count.

ghost use Rattle.std.specs.Prelude.{◌≡◌};
ghost use Rattle.hare_modules.specs.Order as order;

use hare_tree::{Fault, Place};

/// Whether the places are one.
pub fn same_place(p: Place, q: Place) -> bool
    ensures { result ≡ order.same_place p q }
{
    p.file == q.file && p.line == q.line && p.column == q.column
}

/// Whether the first fault counts before the second: it stands before it, or at one place has the smaller number.
pub fn counts_before(f: Fault, g: Fault) -> bool
    ensures { result ≡ order.counts_before f g }
{
    let (p, q) = (f.place, g.place);
    p.file < q.file
        || (p.file == q.file
            && (p.line < q.line
                || (p.line == q.line
                    && (p.column < q.column || (p.column == q.column && f.number < g.number)))))
}

/// The fault that counts first of one that was found before, if there was one, and of another.
pub fn earlier(found: Option<Fault>, f: Fault) -> Option<Fault>
    ensures { result ≡ order.earlier found f }
{
    match found {
        Some(g) => Some(if counts_before(f, g) { f } else { g }),
        None => Some(f),
    }
}

/// The fault that counts first of two that were found, if one was.
pub fn earlier_of(found: Option<Fault>, other: Option<Fault>) -> Option<Fault>
    ensures { result ≡ order.earlier_of found other }
{
    match other {
        Some(f) => earlier(found, f),
        None => found,
    }
}
