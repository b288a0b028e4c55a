//! The modules of a program, and the first fault of its files, imports and declarations.

ghost use Rattle.std.specs.Prelude.{IfOk};
ghost use Rattle.hare_modules.specs.Order.{TellsFirst};
ghost use Rattle.hare_modules.specs.Modules.{sources};
ghost use Rattle.hare_modules.specs.Faults.{IsModuleFault};
ghost use Rattle.hare_modules.specs.Directory.{IsDirectoryOf, AreNumbered};
ghost use Rattle.hare_directory.specs.Seen.{tables_of};

use crate::directory::Directory;
use hare_modules::{
    built_in, collect_claims, collect_uses, earlier_of, first_circle, homes_of, runtime_file,
    take_all, unknown_member, unknown_module,
};
use hare_tree::{Fault, FileTree};
use hx_base::{Items, Text};
use std::alloc::{AllocError, Global};

/// What the modules of a program declare and its files import; and of all faults of its files, imports and declarations the one that counts
/// first, or none where there is none.
///
/// `paths` are those of the files, and `files` their trees, each with its number in that order. They have fewer than 2^32 - 1 declarations.
/// Fails only for want of memory. Takes time in proportion to the imports and declarations, but for look-ups of names.
pub fn look<'a>(
    alloc: Global,
    paths: &[Text],
    files: &'a Items<FileTree>,
) -> Result<(Directory<'a>, Option<Fault>), AllocError>
    requires { AreNumbered paths.now files.now }
    ensures tables { IfOk result (λ r. IsDirectoryOf (sources paths.now files.now) (tables_of r.0)) }
    ensures first { IfOk result (λ r. TellsFirst (IsModuleFault (sources paths.now files.now)) r.1) }
{
    let (known, homes) = homes_of(alloc, paths)?;
    let uses = collect_uses(alloc, &known, homes.as_slice(), files)?;
    let claims = collect_claims(alloc, &known, homes.as_slice(), files)?;
    let mut taken = built_in(alloc, known.len(), files.len())?;
    let repeated = take_all(&mut taken, claims.as_slice())?;
    let circle = first_circle(alloc, known.len(), uses.as_slice())?;
    let runtime = runtime_file(homes.as_slice(), files);
    let module = unknown_module(uses.as_slice());
    let member = unknown_member(taken.items.as_slice(), claims.as_slice());
    let first = earlier_of(
        earlier_of(earlier_of(earlier_of(circle, repeated), runtime), member),
        module,
    );
    let directory = Directory {
        homes,
        items: taken.items,
        imports: taken.imports,
    };
    Ok((directory, first))
}
