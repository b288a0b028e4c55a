//! Which files belong to the module of the first.

ghost use Rattle.std.specs.Prelude.{◌≡◌, [], map, IfOk};
ghost use Rattle.hare_modules.specs.Modules.{same_module};
ghost use Rattle.hare_whole.specs.Limits.{home_of};
ghost use Rattle.hare_limits.specs.Homes as spec;

use hare_modules::module_of;
use hx_base::Text;
use std::alloc::{AllocError, Global};

/// Which files belong to the module of the first.
#[derive(Drop)]
pub(crate) struct Homes {
    /// The module of the first file, by its path.
    first: Vec<u8>,
    /// Of each file, whether it belongs to that module.
    kept: Vec<bool>,
}

/// Which of the files with these paths belong to the module of the first.
pub(crate) fn homes_of(alloc: Global, paths: &[Text]) -> Result<Homes, AllocError>
    ensures { IfOk result (λ h. spec.AreHomes paths.now h.first.items h.kept.items) }
{
    let first = first_home(alloc, paths)?;
    let mut kept = Vec::new(alloc);
    for path in paths {
        let module = module_of(alloc, path.bytes())?;
        kept.push(module.as_slice() == first.as_slice())?;
    }
    Ok(Homes { first, kept })
}

/// The module of the first file; where there is none, the module without a name.
fn first_home(alloc: Global, paths: &[Text]) -> Result<Vec<u8>, AllocError>
    ensures { IfOk result (λ m. m.items ≡ home_of paths.now 0) }
{
    match paths.first() {
        Some(path) => module_of(alloc, path.bytes()),
        None => Ok(Vec::new(alloc)),
    }
}

/// Whether the file with this number belongs to the module of the first.
pub(crate) fn is_home(homes: &Homes, file: usize) -> bool
    ensures { result ≡ spec.is_home homes.now.first.items homes.now.kept.items file }
{
    match homes.kept.get(file) {
        Some(is_home) => *is_home,
        None => homes.first.is_empty(),
    }
}
