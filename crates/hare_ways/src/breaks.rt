//! What is broken over lines.

ghost use Rattle.std.specs.Prelude.{◌≡◌, ◌+◌, ◌<◌, ◌^◌, length, slice_index, if◌then◌else◌};
ghost use Rattle.hare_tree.specs.Node.{head, kids_of};
ghost use Rattle.hare_tree.specs.Spell as spell;
ghost use Rattle.hare_ways.specs.Breaks as breaks;
ghost use Rattle.hare_ways.specs.Broken as spec;
ghost use Rattle.hare_ways.specs.Parts.{items_of};

use crate::count::sign_at;
use crate::inside::{ends_in_comma, is_nil, is_one, kids_behind, wants_comma};
use crate::kinds::{closing, is_braced, is_case, is_list, is_struct, opening};
use hare_tree::{Kind, Sign, Tree};

// How the form of a node is broken.
#[derive(Clone, Copy)]
pub struct Breaks {
    pub kind: Kind,
    // Its brackets are: what stands between them, and the closing one, begins lines.
    pub brackets: bool,
    // Its statements begin lines.
    pub statements: bool,
    // A comma is added behind its last item.
    pub comma: bool,
}

// How the form of a tree is broken that begins behind `n` tokens of the file, where so many comments stand in front of each token.
pub fn breaks_of(comments: &[usize], t: &Tree, n: usize) -> Breaks
    requires { n + length (spell.spell 0 t.now) < 2 ^ 32 }
    ensures { result ≡ breaks.breaks_of comments.now (head t.now) n (spell.kids_spelled 0 t.now) (items_of (kids_of t.now)) }
{
    let brackets = is_broken(comments, t, n);
    Breaks {
        kind: t.kind,
        brackets,
        statements: begins_statements(comments, t, n, brackets),
        comma: adds_comma(t, brackets),
    }
}

// Whether the statements of a form begin lines, whose brackets are broken or not.
fn begins_statements(comments: &[usize], t: &Tree, n: usize, brackets: bool) -> bool
    requires { n + length (spell.spell 0 t.now) < 2 ^ 32 }
    ensures { result ≡ (if breaks.is_case (head t.now).kind then spec.case_has_own_lines comments.now n t.now else brackets) }
{
    if is_case(t.kind) {
        has_own_lines(comments, t, n)
    } else {
        brackets
    }
}

// Whether a comma is added behind the last item of a form whose brackets are broken or not.
fn adds_comma(t: &Tree, brackets: bool) -> bool
    ensures { result ≡ spec.adds_comma brackets t.now }
{
    brackets && is_list(t.kind) && wants_comma(&t.kids, kids_behind(opening(t.kind), t))
}

// Whether the brackets of a form are broken.
fn is_broken(comments: &[usize], t: &Tree, n: usize) -> bool
    requires { n + length (spell.spell 0 t.now) < 2 ^ 32 }
    ensures { result ≡ spec.is_broken_node comments.now n t.now }
{
    if is_braced(t.kind) {
        return !is_nil(&t.kids, kids_behind(opening(t.kind), t)) || has_comment(comments, t, n);
    }
    if is_list(t.kind) {
        return is_struct(t.kind)
            || ends_in_comma(&t.kids, kids_behind(opening(t.kind), t))
            || has_comment(comments, t, n);
    }
    false
}

// Whether a comment stands between the brackets of a form.
fn has_comment(comments: &[usize], t: &Tree, n: usize) -> bool
    requires { n + length (spell.spell 0 t.now) < 2 ^ 32 }
    ensures { result ≡ breaks.has_comment comments.now (head t.now) n (spell.kids_spelled 0 t.now) }
{
    is_commented(
        comments,
        sign_at(opening(t.kind), t, n),
        sign_at(closing(t.kind), t, n),
    )
}

// Whether the statements of a case begin lines.
fn has_own_lines(comments: &[usize], t: &Tree, n: usize) -> bool
    requires { n + length (spell.spell 0 t.now) < 2 ^ 32 }
    ensures { result ≡ spec.case_has_own_lines comments.now n t.now }
{
    if !is_one(&t.kids, kids_behind(Sign::Arrow, t)) {
        return true;
    }
    is_commented(comments, n, sign_at(Sign::Arrow, t, n) + 1)
}

// Whether a comment stands behind the first of two tokens and in front of the second.
fn is_commented(comments: &[usize], i: usize, j: usize) -> bool
    ensures { result ≡ breaks.is_commented comments.now i j }
{
    comments_at(comments, i) < comments_at(comments, j)
}

// How many comments stand in front of a token.
fn comments_at(comments: &[usize], i: usize) -> usize
    ensures { result ≡ slice_index comments.now i }
{
    match comments.get(i) {
        Some(count) => *count,
        None => 0,
    }
}
