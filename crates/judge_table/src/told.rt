//! What a line tells of a node.

use hare_rules::{Case, Hint, Inside, Labels, Locals, Yields};
use hare_tree::Meaning;
use hare_types::{Ty, TypeId};
use rule_judge::DeclTypes;
use std::alloc::Global;

/// What is told of the nodes that stand at a column.
#[derive(Drop)]
pub(crate) struct Mark {
    pub column: u32,
    /// The type of what they give, where it is not told by the node itself.
    pub ty: Option<Ty>,
    /// The type to which that goes, where it does not stay as it is.
    pub to: Option<TypeId>,
}

/// What a line tells of a node, of its kids and of what stands round it.
#[derive(Drop)]
pub(crate) struct Told {
    /// The bindings.
    pub locals: Locals,
    /// Their names.
    pub names: Vec<String>,
    /// The declarations.
    pub decls: DeclTypes,
    /// What the judge is told beside the kids.
    pub case: Case,
    pub marks: Vec<Mark>,
    /// The type to which the values of cases go.
    pub values: Option<TypeId>,
    /// Which kid of the expression is judged; where none is told, the expression itself is.
    pub part: Option<usize>,
}

impl Told {
    /// Nothing, but that the function gives a type.
    pub fn new(alloc: Global, given: TypeId) -> Told {
        let inside = Inside {
            own: 0,
            result: given,
            labels: Labels::new(alloc),
            deferred: false,
            body: false,
        };
        let case = Case {
            hint: Hint::None,
            meaning: Meaning::None,
            yields: Yields::new(alloc),
            inside,
        };
        Told {
            locals: Locals::new(alloc),
            names: Vec::new(alloc),
            decls: DeclTypes::new(alloc),
            case,
            marks: Vec::new(alloc),
            values: None,
            part: None,
        }
    }
}
