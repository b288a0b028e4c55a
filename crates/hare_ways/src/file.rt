//! The ways of a file's tokens.

ghost use Rattle.std.specs.Prelude.{◌≡◌, ◌<◌, ◌^◌, ◌≤◌, ◌+◌, ◌++◌, length, IfOk, OnOk};
ghost use Rattle.hare_ways.specs.Ways as ways;

use crate::walk::{Stand, put_row};
use crate::way::{Start, Way};
use hare_tree::{FileTree, Kids, Kind, Lead};
use std::alloc::{AllocError, Global};

/// The way of each token of a file, and of its end, where so many comments stand in front of each token and of the end. Strings side by
/// side are one token. There are fewer than 2^32 of them (`law_each_token_has_a_way`).
///
/// The time is at most the number of tokens times that of the brackets that are open round one another, of which a tree of the language
/// has few. The call goes as deep in the host as the tree does, of which a tree of the language has few levels as well. It fails for want of
/// memory alone.
pub fn file_ways(alloc: Global, comments: &[usize], t: &FileTree) -> Result<Vec<Way>, AllocError>
    requires { length (ways.file_ways comments.now t.now) < 2 ^ 32 }
    ensures { IfOk result (λ found. found.items ≡ ways.file_ways comments.now t.now) }
{
    let mut out = Vec::new(alloc);
    put_roots(&mut out, comments, &t.uses)?;
    put_roots(&mut out, comments, &t.decls)?;
    out.push(end_way())?;
    Ok(out)
}

// Puts the ways of trees side by side, each of which begins a line.
fn put_roots(out: &mut Vec<Way>, comments: &[usize], trees: &Kids) -> Result<(), AllocError>
    requires { length out.old.items + length (ways.roots_ways comments.now (length out.old.items) trees.now) < 2 ^ 32 }
    ensures { OnOk result (out.new.items ≡ out.old.items ++ ways.roots_ways comments.now (length out.old.items) trees.now) }
{
    let stand = Stand {
        kind: Kind::None,
        start: Start::Begins,
        depth: 0,
    };
    put_row(out, comments, trees, 0, Lead::Nothing, stand)
}

// The end of the file.
fn end_way() -> Way
    ensures { result ≡ ways.end_way }
{
    Way {
        start: Start::Begins,
        depth: 0,
        joins_before: false,
        joins_behind: false,
        comma: false,
    }
}
