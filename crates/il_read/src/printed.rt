//! The module that was printed as a text.

ghost use Rattle.std.specs.Prelude.{◌≡◌, ◌≢◌, ◌&&◌, IfOk, IfSome, IfNone, Some};
ghost use Rattle.std.specs.List.{list_all};
ghost use Rattle.il_code.specs.declared.types.Module.{Module};
ghost use Rattle.il_code.specs.Print.{module_text};
ghost use Rattle.il_code.specs.Shaped.{is_shaped};
ghost use Rattle.il_read.specs.Recoverable.{is_aligned, IsRecoverable};

use crate::items::module_at;
use il_code::{IlItem, Module, Stop, is_shaped, print};
use std::alloc::{AllocError, Global};

/// The recoverable module whose printed text this is. It is found for every recoverable module, so for every valid one, and it is that
/// very module. The time is linear in the text: what was read is printed again and compared with the text. The only error is want of
/// memory.
pub fn read_printed(alloc: Global, src: &[u8]) -> Result<Option<Module>, AllocError>
    ensures some { IfOk result (λ r. IfSome r (λ m. IsRecoverable m × (src.now ≡ module_text m))) }
    ensures found { (m : Module) → IsRecoverable m → src.now ≡ module_text m → IfOk result (λ r. r ≡ Some m) }
    ensures none { IfOk result (λ r. IfNone r ((m : Module) → IsRecoverable m → src.now ≢ module_text m)) }
{
    let module = match module_at(alloc, src) {
        Ok(module) => module,
        Err(Stop::Fault(_)) => return Ok(None),
        Err(Stop::Memory) => return Err(AllocError),
    };
    if !is_recoverable(&module) {
        return Ok(None);
    }
    let text = print(alloc, &module)?;
    if text.bytes() == src {
        Ok(Some(module))
    } else {
        Ok(None)
    }
}

// Whether the text of a module shows all of it.
fn is_recoverable(m: &Module) -> bool
    ensures { result ≡ (is_shaped m.now && list_all is_aligned m.now.items) }
{
    is_shaped(m) && are_aligned(m.items.as_slice())
}

fn are_aligned(items: &[IlItem]) -> bool
    ensures { result ≡ list_all is_aligned items.now }
{
    items.iter().all(|i| is_aligned(i))
}

fn is_aligned(i: &IlItem) -> bool
    ensures { result ≡ is_aligned i.now }
{
    match i {
        IlItem::Data { align, .. } => u64::from(*align) < 1 << 32,
        IlItem::Function { .. } => true,
    }
}
