//! A written type whose turn has come.

ghost use Rattle.std.specs.Prelude.{◌≡◌};
ghost use Rattle.hare_tree.specs.declared.stop.Stop.TheVariants.{Fault as Refused};
ghost use Rattle.hare_rules.specs.Table.{number_of};

use hare_rules::{RowId, number};
use hare_tree::{Fault, Meaning, Place, Stop, Tree};
use hare_typed::TypedKids;
use rule_judge::DeclTypes;

/// What a judge of written types is told of a node.
#[derive(Clone, Copy)]
pub struct Written<'a> {
    /// What is known of the declarations.
    pub decls: &'a DeclTypes,
    /// What the names say of a path.
    pub meaning: Meaning,
    /// Whether it is the type of a binding, which has to have a size.
    pub bound: bool,
    /// Its untyped tree.
    pub node: &'a Tree,
    /// Its kids, which have been judged.
    pub kids: &'a TypedKids,
}

/// The fault of a row, at a place.
pub(crate) fn stop(row: RowId, place: Place) -> Stop<Fault>
    ensures { result ≡ Refused (record { number = number_of row; place = place }) }
{
    Stop::Fault(Fault {
        number: number(row),
        place,
    })
}
