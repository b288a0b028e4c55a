//! Trees that are whole.

ghost use Rattle.std.specs.Prelude.{◌≡◌, IfOk};
ghost use Rattle.hare_automaton.specs.Engine as engine;

use hare_tree::{Kids, Kind, Place, Suffix, Token, Tree, Word};
use std::alloc::{AllocError, Global};

/// A tree with nothing in it.
pub fn bare_leaf(alloc: Global, kind: Kind, place: Place) -> Tree
    ensures { result ≡ engine.bare_leaf kind place }
{
    Tree {
        kind,
        place,
        text: Word::new(alloc),
        number: 0,
        suffix: Suffix::None,
        kids: Kids::new(alloc),
    }
}

/// A tree of the token alone.
pub fn full_leaf(alloc: Global, kind: Kind, token: &Token) -> Result<Tree, AllocError>
    ensures { IfOk result (λ t. t ≡ engine.full_leaf kind token.now) }
{
    let text = Word::copy(alloc, token.text.bytes())?;
    Ok(Tree {
        kind,
        place: token.place,
        text,
        number: token.number,
        suffix: token.suffix,
        kids: Kids::new(alloc),
    })
}
