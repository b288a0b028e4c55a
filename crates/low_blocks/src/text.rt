//! The globals of strings.

ghost use Rattle.std.specs.Prelude.{◌≡◌, IfOk};
ghost use Rattle.low_blocks.specs.Programs.{text_name, text_items, text_global};

use flat_code::{Data, Item, Items};
use hx_base::{Bytes, Text};
use std::alloc::{AllocError, Global};

/// The global of a string, by its place in the order of the text.
pub fn text_global(alloc: Global, place: u32, text: &[u8]) -> Result<Data, AllocError>
    ensures { IfOk result (λ d. d ≡ text_global place text.now) }
{
    let name = text_name(alloc, place)?;
    let items = text_items(alloc, text)?;
    Ok(Data {
        name,
        align: 1,
        items,
    })
}

fn text_name(alloc: Global, place: u32) -> Result<Text, AllocError>
    ensures { IfOk result (λ s. s ≡ text_name place) }
{
    let mut name = Text::copy(alloc, "s")?;
    name.push_decimal(i128::from(place))?;
    Ok(name)
}

/// The bytes of a string, if it has any.
fn text_items(alloc: Global, text: &[u8]) -> Result<Items<Item>, AllocError>
    ensures { IfOk result (λ is. is ≡ text_items text.now) }
{
    let mut items = Items::new(alloc);
    match text {
        [] => {}
        _ => {
            let mut bytes = Bytes::new(alloc);
            bytes.extend(text)?;
            items.push(Item::Bytes(bytes))?;
        }
    }
    Ok(items)
}
