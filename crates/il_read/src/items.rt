//! Items, and the module of a text.

ghost use Rattle.il_read.specs.Items as spec;
ghost use Rattle.il_read.specs.Taken.{Takes, Makes};

use crate::data::data_at;
use crate::front::{behind, skip};
use crate::function::function_at;
use crate::list::{Construct, Repeated, each_at};
use crate::taken::{NotPrinted, Taken};
use il_code::{IlItem, Module, Stop};
use std::alloc::Global;

/// The module that a text may be the printed text of: no other is.
#[tactic(auto, unfolding(crate::specs::Items::module_at))]
pub fn module_at(alloc: Global, s: &[u8]) -> Result<Module, Stop<NotPrinted>>
    ensures { Makes result (spec.module_at s.now) }
{
    let (items, _rest) = each_at(alloc, s)?;
    Ok(Module { items })
}

impl Construct for IlItem {
    ghost reads = { spec.item_at };

    fn at(alloc: Global, s: &[u8]) -> Taken<'_, Self> {
        item_at(alloc, s)
    }
}

impl Repeated for IlItem {
    ghost starts = { spec.begins_item };

    fn begins(s: &[u8]) -> bool {
        !s.is_empty()
    }
}

// A data item or a function.
#[tactic(auto, unfolding(crate::specs::Items::item_at))]
fn item_at(alloc: Global, s: &[u8]) -> Taken<'_, IlItem>
    ensures { Takes result (spec.item_at s.now) }
{
    if let Some(rest) = behind(s, b"export ") {
        return definition_at(alloc, true, rest);
    }
    definition_at(alloc, false, s)
}

// A data item or a function behind its `export`, if it has one.
#[tactic(auto, unfolding(crate::specs::Items::definition_at))]
fn definition_at(alloc: Global, export: bool, s: &[u8]) -> Taken<'_, IlItem>
    ensures { Takes result (spec.definition_at export s.now) }
{
    if let Some(rest) = behind(s, b"data ") {
        return data_at(alloc, export, rest);
    }
    let rest = skip(s, b"function ")?;
    function_at(alloc, export, rest)
}
