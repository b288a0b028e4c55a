//! Lists of things that have a text: one behind the other, with commas between, or each on a line.

ghost use Rattle.std.specs.Prelude.{◌≡◌, ◌++◌, ℕ, List, OnOk};
ghost use Rattle.std.specs.List.{flat_map};
ghost use Rattle.il_code.specs.Print.{with_commas, behind_commas, on_line};

use hx_base::Bytes;
use std::alloc::AllocError;

/// What has a text.
pub trait Printed {
    /// The text.
    ghost text: { Self → List ℕ };

    /// Puts the text at the end of `out`.
    fn put(&self, out: &mut Bytes) -> Result<(), AllocError>
        ensures { OnOk result (out.new ≡ out.old ++ text self.now) };
}

/// Puts one text behind the other.
pub fn put_each<T: Printed>(out: &mut Bytes, items: &[T]) -> Result<(), AllocError>
    ensures { OnOk result (out.new ≡ out.old ++ flat_map T.text items.now) }
{
    for item in items {
        item.put(out)?;
    }
    Ok(())
}

/// Puts the texts with a comma and a space between them.
pub fn put_with_commas<T: Printed>(out: &mut Bytes, items: &[T]) -> Result<(), AllocError>
    ensures { OnOk result (out.new ≡ out.old ++ with_commas T.text items.now) }
{
    match items {
        [] => Ok(()),
        [first, rest @ ..] => {
            first.put(out)?;
            put_behind_commas(out, rest)
        }
    }
}

/// Puts each text behind a comma and a space.
fn put_behind_commas<T: Printed>(out: &mut Bytes, items: &[T]) -> Result<(), AllocError>
    ensures { OnOk result (out.new ≡ out.old ++ behind_commas T.text items.now) }
{
    for item in items {
        out.extend(b", ")?;
        item.put(out)?;
    }
    Ok(())
}

/// Puts each text on a line of its own, behind a tab.
pub fn put_lines<T: Printed>(out: &mut Bytes, items: &[T]) -> Result<(), AllocError>
    ensures { OnOk result (out.new ≡ out.old ++ flat_map (λ i. on_line (T.text i)) items.now) }
{
    for item in items {
        out.extend(b"\t")?;
        item.put(out)?;
        out.extend(b"\n")?;
    }
    Ok(())
}
