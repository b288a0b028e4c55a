//! The constants that nodes carry.

ghost use Rattle.std.specs.Prelude.{◌≡◌, nat_eq, find, option_map, IfOk};
ghost use Rattle.hare_rules.specs.Values as values;
ghost use Rattle.hare_rules.specs.Context.{Setting};

use hare_copies::copy_constant;
use hare_rules::DeclType;
use hare_tree::Meaning;
use hare_typed::Const;
use rule_judge::DeclTypes;
use std::alloc::{AllocError, Global};

/// The constant of the declaration that a path means; none where it means none. Takes the memory of that constant.
pub fn named_value(alloc: Global, decls: &DeclTypes, meaning: Meaning) -> Result<Const, AllocError>
    ensures { IfOk result (λ v. (w : Setting) → w.decls ≡ decls.now → v ≡ values.value_of_meaning w meaning) }
{
    let Meaning::Decl(number) = meaning else {
        return Ok(Const::Absent);
    };
    match decls.find(number) {
        Some(d) => {
            let value = copy_constant(alloc, &d.value)?;
            Ok(value)
        }
        None => Ok(Const::Absent),
    }
}
