//! The ways of single tokens.

ghost use Rattle.std.specs.Prelude.{◌≡◌, ◌∷◌, [], ◌++◌, ◌<◌, ◌+◌, ◌&&◌, ◌==◌, not, length, slice_index, OnOk};
ghost use Rattle.hare_tree.specs.Node.{head};
ghost use Rattle.hare_tree.specs.Spell.{parts};
ghost use Rattle.hare_ways.specs.Ways as ways;
ghost use Rattle.hare_ways.specs.Walk.{deepened, at_depth, mark_ways};

use crate::breaks::Breaks;
use crate::joins::{joins_before, joins_behind};
use crate::kinds::{closing, is_braced, is_sign};
use crate::way::{Start, Way};
use hare_tree::{Kind, Own, Sign, Tree};
use std::alloc::AllocError;

// A token with a blank on both sides.
fn plain(depth: u32) -> Way
    ensures { result ≡ deepened depth ways.plain }
{
    Way {
        start: Start::Within,
        depth,
        joins_before: false,
        joins_behind: false,
        comma: false,
    }
}

// A sign in a form of the kind.
pub fn sign_way(k: Kind, s: Sign, depth: u32) -> Way
    ensures { result ≡ deepened depth (ways.sign_way k s) }
{
    Way {
        start: Start::Within,
        depth,
        joins_before: joins_before(s, k),
        joins_behind: joins_behind(s, k),
        comma: false,
    }
}

// The closing bracket.
fn closing_way(breaks: Breaks, s: Sign, depth: u32) -> Way
    ensures { result ≡ deepened depth (ways.closing_way breaks s) }
{
    if breaks.brackets {
        return Way {
            start: Start::Outdented,
            depth,
            joins_before: joins_before(s, breaks.kind),
            joins_behind: joins_behind(s, breaks.kind),
            comma: breaks.comma,
        };
    }
    Way {
        start: Start::Within,
        depth,
        joins_before: joins_before(s, breaks.kind) || is_braced(breaks.kind),
        joins_behind: joins_behind(s, breaks.kind),
        comma: false,
    }
}

// A sign that a form always has.
pub fn fixed_way(breaks: Breaks, inside: bool, s: Sign, depth: u32) -> Way
    ensures { result ≡ deepened depth (ways.fixed_way breaks inside s) }
{
    if inside && is_sign(s, closing(breaks.kind)) {
        closing_way(breaks, s, depth)
    } else {
        sign_way(breaks.kind, s, depth)
    }
}

// Puts the ways of the tokens that are made from a tree's text, number and suffix.
pub fn put_own(out: &mut Vec<Way>, t: &Tree, own: Own, depth: u32) -> Result<(), AllocError>
    ensures { OnOk result (out.new.items ≡ out.old.items ++ at_depth depth (ways.own_ways (head t.now) own)) }
{
    match own {
        Own::Nothing => Ok(()),
        Own::Path => put_path(out, t.kind, t.text.bytes(), depth),
        Own::Label => put_label(out, t.text.bytes(), depth),
        _ => {
            out.push(plain(depth))?;
            Ok(())
        }
    }
}

// Puts the ways of names with `::` between them.
fn put_path(out: &mut Vec<Way>, k: Kind, text: &[u8], depth: u32) -> Result<(), AllocError>
    ensures { OnOk result (out.new.items ≡ out.old.items ++ at_depth depth (ways.path_ways k (parts text.now))) }
{
    out.push(plain(depth))?;
    let mut taken = false;
    for i in 0..text.len() {
        taken = is_path_mark(text, i, taken);
        put_mark(out, k, taken, depth)?;
    }
    Ok(())
}

// Puts the ways of a `::` and of the name behind it, where a `::` stands there.
fn put_mark(out: &mut Vec<Way>, k: Kind, is_mark: bool, depth: u32) -> Result<(), AllocError>
    ensures { OnOk result (out.new.items ≡ out.old.items ++ at_depth depth (mark_ways k is_mark)) }
{
    if is_mark {
        out.push(sign_way(k, Sign::PathMark, depth))?;
        out.push(plain(depth))?;
    }
    Ok(())
}

// Whether a `::` begins at a place of a path; where one begins right before it, its second colon stands here.
pub fn is_path_mark(text: &[u8], i: usize, taken: bool) -> bool
    requires { i < length text.now }
    ensures { result ≡ (not taken && (slice_index text.now i == 58 && slice_index text.now (i + 1) == 58)) }
{
    !taken && text[i] == b':' && i + 1 < text.len() && text[i + 1] == b':'
}

// Puts the ways of a label.
fn put_label(out: &mut Vec<Way>, text: &[u8], depth: u32) -> Result<(), AllocError>
    ensures { OnOk result (out.new.items ≡ out.old.items ++ at_depth depth (ways.label_ways text.now)) }
{
    if text.is_empty() {
        return Ok(());
    }
    out.push(Way {
        start: Start::Within,
        depth,
        joins_before: false,
        joins_behind: true,
        comma: false,
    })?;
    out.push(plain(depth))?;
    Ok(())
}
