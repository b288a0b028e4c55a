//! The numbers of modules.

ghost use Rattle.std.specs.Prelude.{map, IfOk};
ghost use Rattle.hare_modules.specs.Modules.{module_of};
ghost use Rattle.hare_modules.specs.Numbering.{IsNumbering};

use crate::paths::module_of;
use crate::register::Register;
use hx_base::Text;
use std::alloc::{AllocError, Global};

/// The modules that are known, and of each file the number of its module. The module `rt` has the number 0.
pub fn homes_of(alloc: Global, paths: &[Text]) -> Result<(Register, Vec<usize>), AllocError>
    ensures { IfOk result (λ r. IsNumbering (map module_of paths.now) r.0 r.1.items) }
{
    let mut known = Register::new(alloc);
    let mut runtime = Vec::new(alloc);
    runtime.extend_from_slice(b"rt")?;
    known.enter(runtime)?;
    let mut homes = Vec::new(alloc);
    for path in paths {
        let module = module_of(alloc, path.bytes())?;
        let number = known.enter(module)?;
        homes.push(number)?;
    }
    Ok((known, homes))
}
