//! The trees of a whole file read from its tokens.

ghost use Rattle.std.specs.Prelude.{◌≡◌, ◌++◌, ◌≤◌, [], ◌∷◌, length, drop, IfOk, IfSome, OnOk};
ghost use Rattle.hare_tree.specs.Depth.{greatest_height};
ghost use Rattle.hare_tree.specs.Node.{nodes_of};
ghost use Rattle.hare_tree.specs.Grammar.{joined, StandsAt};
ghost use Rattle.hare_tree.specs.Spell.{start_of};
ghost use Rattle.hare_automaton.specs.Engine as engine;
ghost use Rattle.hare_automaton.specs.Engine.{Done};
ghost use Rattle.hare_automaton.specs.OneTree.{file_symbols};
ghost use Rattle.hare_ll_table.specs.Seen.{waited};
ghost use Rattle.hare_parse.specs.Files as spec;

use crate::group::Group;
use crate::run::{HIGHEST, Reached, bottom, run, run_low};
use hare_automaton::Rule;
use hare_ll_table::{Stack, Wait, part, push_waits};
use hare_tree::{Kids, Kind, Sort, Tokens, Tree};
use std::alloc::{AllocError, Global};

/// What the tokens of a file come to.
#[derive(Drop)]
pub enum FileOutcome {
    /// The imports and the declarations, in the order of the source. The number is the place in the list of tokens of the first that is not
    /// used.
    Done(Kids, Kids, usize),
    /// The token at this place of the list cannot stand there, or the tokens are used up.
    Stuck(usize),
}

/// Reads imports, and behind them declarations, from the tokens of a file, as many as there are. Strings side by side are one token.
///
/// The call takes time linear in the tokens that it reads. It uses the host's stack only where trees are given up, as deep as they are, so
/// its caller looks at the depth first.
pub fn read_file(alloc: Global, file: u32, tokens: &Tokens) -> Result<FileOutcome, AllocError>
    ensures run { IfOk result (λ o. engine.run file (joined tokens.now) file_symbols engine.bottom ≡ spec.outcome_of o tokens.now) }
    ensures sorts { IfOk result (λ o. spec.HasSorts o) }
    ensures within { IfOk result (λ o. spec.place_of o ≤ length tokens.now) }
    ensures place { IfOk result (λ o. StandsAt tokens.now (spec.place_of o) (joined (drop (spec.place_of o) tokens.now))) }
{
    let mut stack = file_waits(alloc)?;
    let mut groups = bottom(alloc)?;
    match run(alloc, file, tokens, 0, &mut stack, &mut groups)? {
        Reached::End(next) => {
            let Parts { uses, decls } = parts_of(alloc, trees_in(&mut groups))?;
            Ok(FileOutcome::Done(uses, decls, next))
        }
        Reached::Stuck(next) => Ok(FileOutcome::Stuck(next)),
    }
}

/// The imports and the declarations that the tokens of a file begin with.
#[derive(Drop)]
pub struct LowFile {
    /// The imports, in the order of the source.
    pub uses: Kids,
    /// The declarations, in the order of the source.
    pub decls: Kids,
    /// The place in the list of tokens of the first that is not used.
    pub next: usize,
}

/// Reads imports and declarations in the same way, where all trees are so low that they keep both limits on depth. None where a token
/// cannot stand where it stands, where the tokens are used up, and where a tree is higher: a caller who needs to know more looks at the
/// depth, and reads the file again.
///
/// The call takes time linear in the tokens that it reads, and no more of the host's stack than trees need that keep the limits.
pub fn read_low_file(
    alloc: Global,
    file: u32,
    tokens: &Tokens,
) -> Result<Option<LowFile>, AllocError>
    ensures run { IfOk result (λ o. IfSome o (λ f. engine.run file (joined tokens.now) file_symbols engine.bottom ≡
        Done (joined (drop f.next tokens.now)) (spec.file_made f.uses f.decls))) }
    ensures sorts { IfOk result (λ o. IfSome o (λ f. spec.HaveSorts f.uses f.decls)) }
    ensures place { IfOk result (λ o. IfSome o (λ f. StandsAt tokens.now f.next (joined (drop f.next tokens.now)))) }
    ensures low { IfOk result (λ o. IfSome o (λ f. greatest_height (nodes_of (f.uses ++ f.decls)) ≤ 256)) }
{
    let mut stack = file_waits(alloc)?;
    let mut groups = bottom(alloc)?;
    match run_low(alloc, file, tokens, &mut stack, &mut groups)? {
        Some(Reached::End(next)) => match low_parts(alloc, &mut groups)? {
            Some(Parts { uses, decls }) => Ok(Some(LowFile { uses, decls, next })),
            None => Ok(None),
        },
        Some(Reached::Stuck(_)) | None => Ok(None),
    }
}

/// Takes the parts of the file that is under way out, where its trees are low.
fn low_parts(alloc: Global, groups: &mut Stack<Group>) -> Result<Option<Parts>, AllocError>
    requires { spec.HoldsFile groups.old }
    ensures made { IfOk result (λ o. IfSome o (λ p. groups.old ≡ spec.file_made p.uses p.decls)) }
    ensures sorts { IfOk result (λ o. IfSome o (λ p. spec.HaveSorts p.uses p.decls)) }
    ensures low { IfOk result (λ o. IfSome o (λ p. greatest_height (nodes_of (p.uses ++ p.decls)) ≤ 256)) }
{
    match groups.top() {
        Some(group) if group.highest() <= HIGHEST => {
            let parts = parts_of(alloc, trees_in(groups))?;
            Ok(Some(parts))
        }
        _ => Ok(None),
    }
}

/// What is waited for in order to read a file.
fn file_waits(alloc: Global) -> Result<Stack<Wait>, AllocError>
    ensures { IfOk result (λ stack. waited stack ≡ file_symbols) }
{
    let mut stack = Stack::new(alloc);
    push_waits(
        &mut stack,
        &[part(Rule::Each(Sort::Use)), part(Rule::Each(Sort::Decl))],
    )?;
    Ok(stack)
}

/// The parts of a file.
#[derive(Drop)]
struct Parts {
    uses: Kids,
    decls: Kids,
}

impl Parts {
    /// Puts a tree behind the imports if it is one, and else behind the declarations.
    fn push(&mut self, tree: Tree) -> Result<(), AllocError>
        ensures uses { OnOk result (self.new.uses ≡ self.old.uses ++ spec.imports (tree ∷ [])) }
        ensures decls { OnOk result (self.new.decls ≡ self.old.decls ++ spec.others (tree ∷ [])) }
    {
        if is_import(tree.kind) {
            self.uses.push(tree)
        } else {
            self.decls.push(tree)
        }
    }
}

/// Whether a tree of this kind is an import.
fn is_import(kind: Kind) -> bool
    ensures { result ≡ spec.is_import kind }
{
    matches!(kind, Kind::Use | Kind::UseAlias | Kind::UseNames)
}

/// Takes the trees of the file out.
fn trees_in(groups: &mut Stack<Group>) -> Vec<Tree>
    requires { spec.HoldsFile groups.old }
    ensures { groups.old ≡ engine.begun (start_of 0) result.items ∷ [] }
{
    match groups.pop() {
        Some(group) => group.into_kids(),
        None => unreachable!(),
    }
}

/// The trees as imports and others, each in their order.
fn parts_of(alloc: Global, trees: Vec<Tree>) -> Result<Parts, AllocError>
    ensures uses { IfOk result (λ p. p.uses ≡ spec.imports trees.items) }
    ensures decls { IfOk result (λ p. p.decls ≡ spec.others trees.items) }
{
    let mut parts = Parts {
        uses: Kids::new(alloc),
        decls: Kids::new(alloc),
    };
    for tree in trees {
        parts.push(tree)?;
    }
    Ok(parts)
}
