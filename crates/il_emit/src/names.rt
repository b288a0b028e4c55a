//! The names that stand in emitted functions.

ghost use Rattle.std.specs.Prelude.{◌≡◌, IfOk};
ghost use Rattle.il_emit.specs.Names.{temp_name, address_name, frame_name, label_name};

use hx_base::Text;
use std::alloc::{AllocError, Global};

/// The name of a temporary of the flat function.
pub fn temp_name(alloc: Global, t: u32) -> Result<Text, AllocError>
    ensures { IfOk result (λ s. s ≡ temp_name t) }
{
    let mut name = Text::copy(alloc, "t")?;
    name.push_decimal(i128::from(t))?;
    Ok(name)
}

/// The name of a temporary that holds a computed address.
pub fn address_name(alloc: Global, k: u64) -> Result<Text, AllocError>
    ensures { IfOk result (λ s. s ≡ address_name k) }
{
    let mut name = Text::copy(alloc, "a")?;
    name.push_decimal(i128::from(k))?;
    Ok(name)
}

/// The name of the temporary that holds the address of the call's frame.
pub fn frame_name(alloc: Global) -> Result<Text, AllocError>
    ensures { IfOk result (λ s. s ≡ frame_name) }
{
    Text::copy(alloc, "f")
}

/// The name of a block.
pub fn label_name(alloc: Global, n: u64) -> Result<Text, AllocError>
    ensures { IfOk result (λ s. s ≡ label_name n) }
{
    let mut name = Text::copy(alloc, "b")?;
    name.push_decimal(i128::from(n))?;
    Ok(name)
}

/// The same text again.
pub fn same_text(alloc: Global, t: &Text) -> Result<Text, AllocError>
    ensures { IfOk result (λ s. s ≡ t.now) }
{
    let mut text = Text::new(alloc);
    text.append(t)?;
    Ok(text)
}
