//! Whether a module is valid.

ghost use Rattle.std.specs.Prelude.{◌≡◌, ◌↔◌, ◌&&◌, IsTrue};
ghost use Rattle.std.specs.List.{list_all, list_any};
ghost use Rattle.il_code.specs.Rules.{IsValid, has_own_names, flow_is_right, item_is_right, is_main, item_is_small};
ghost use Rattle.il_code.specs.Shaped.{is_shaped, is_lawful};

mod calls;
mod flow;
mod kinds;
mod names;
mod numbers;
mod operands;
mod shape;
mod temps;

use crate::types::{IlItem, Module};
use flow::flow_is_right;
use names::{are_distinct, has_own_names};
use numbers::{is_small, item_is_small};
use operands::{is_main, item_is_right};
pub use shape::is_shaped;

/// Whether the module is valid: its printed text is that of this same module, and it breaks no rule of the language. Takes no memory.
///
/// The rules are those of the QBE IL reference: symbols, labels and parameters are defined once; labels, temporaries and symbols that are
/// used are defined; each operand has the class that is wanted; phis name the predecessors of their blocks; no jump goes to a first block;
/// a function `$main` is there; alignments and amounts are in their ranges.
pub fn valid(m: &Module) -> bool
    ensures { IsTrue result ↔ IsValid m.now }
{
    passes(m)
}

fn passes(m: &Module) -> bool
    ensures { result ≡ (is_shaped m.now && is_lawful m.now.items) }
{
    is_shaped(m) && is_lawful(m.items.as_slice())
}

#[tactic(auto, unfolding(crate::specs::Shaped::is_lawful))]
fn is_lawful(items: &[IlItem]) -> bool
    ensures { result ≡ is_lawful items.now }
{
    are_distinct(items)
        && have_own_names(items)
        && flows_are_right(items)
        && items_are_right(items)
        && has_main(items)
        && items_are_small(items)
        && is_small(items)
}

fn have_own_names(items: &[IlItem]) -> bool
    ensures { result ≡ list_all has_own_names items.now }
{
    items.iter().all(|i| has_own_names(i))
}

fn flows_are_right(items: &[IlItem]) -> bool
    ensures { result ≡ list_all flow_is_right items.now }
{
    items.iter().all(|i| flow_is_right(i))
}

fn items_are_right(items: &[IlItem]) -> bool
    ensures { result ≡ list_all (item_is_right items.now) items.now }
{
    items.iter().all(|i| item_is_right(items, i))
}

fn has_main(items: &[IlItem]) -> bool
    ensures { result ≡ list_any is_main items.now }
{
    items.iter().any(|i| is_main(i))
}

fn items_are_small(items: &[IlItem]) -> bool
    ensures { result ≡ list_all item_is_small items.now }
{
    items.iter().all(|i| item_is_small(i))
}
