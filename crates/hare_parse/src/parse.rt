//! Types and expressions read from the tokens of a file.

ghost use Rattle.std.specs.Prelude.{◌≡◌, ℕ, ◌<◌, true, drop, length, IfOk, IfErr};
ghost use Rattle.hare_tree.specs.declared.place.Fault.{Fault};
ghost use Rattle.hare_tree.specs.declared.form.Sort.TheVariants as so;
ghost use Rattle.hare_tree.specs.Forms as forms;
ghost use Rattle.hare_tree.specs.Node.{Node};
ghost use Rattle.hare_tree.specs.Grammar.{trees_of, place_of, IsDepthFault};
ghost use Rattle.hare_prefixes.specs.Viable.{has_trees};
ghost use Rattle.hare_recogniser.specs.Limits.{TreesFit};
ghost use Rattle.hare_parse.specs.Answers as spec;

use crate::reader::{Outcome, read};
use hare_recogniser::depth_fault;
use hare_tree::{Fault, Place, Sort, Stop, Tokens, Tree};
use std::alloc::Global;

/// A tree, and the place in the list of tokens behind it.
#[derive(Drop)]
pub struct Parsed {
    /// The tree.
    pub tree: Tree,
    /// The place in the list of the first token that is not the tree's.
    pub next: usize,
}

/// The type that the tokens of a file are from a place of their list on (Hare specification, "Types").
///
/// The place is that of a token of the list: `at` is below its length. The run is the longest list of tokens from there on with which the
/// tokens of a type begin. Where it is all the tokens of one, the answer is its tree; else the fault is E8 at the token behind the run, or
/// at the last token where none is behind it. E9 stands at the first token at which a limit on depth is passed, where at most 255 types and
/// expressions may be open round another, and comes before E8.
///
/// The time is linear in the tokens of the run.
#[tactic(auto, using(crate::proofs::ClosedRun::Once::only_tree, crate::proofs::ClosedRun::Once::only_fault))]
pub fn parse_type(alloc: Global, t: &Tokens, at: usize) -> Result<Parsed, Stop<Fault>>
    requires { at < length t.now }
    ensures ok { IfOk result (λ p. spec.IsParsed so.Type t.now at p) }
    ensures err { IfErr result (λ e. spec.Stops so.Type t.now at e) }
    ensures only_tree { (tree : Node) (n : ℕ) → spec.IsRead so.Type (spec.file_in t.now at) (drop at t.now) tree n →
        spec.GivesTree at tree n result }
    ensures only_fault { (f : Fault) → spec.HasFault so.Type (drop at t.now) f → spec.GivesFault f result }
{
    parse(alloc, t, at, Sort::Type)
}

/// The expression that the tokens of a file are from a place of their list on (Hare specification, "Expressions"), in the same way, with
/// the same faults. The place is that of a token of the list.
#[tactic(auto, using(crate::proofs::ClosedRun::Once::only_tree, crate::proofs::ClosedRun::Once::only_fault))]
pub fn parse_expr(alloc: Global, t: &Tokens, at: usize) -> Result<Parsed, Stop<Fault>>
    requires { at < length t.now }
    ensures ok { IfOk result (λ p. spec.IsParsed forms.expr t.now at p) }
    ensures err { IfErr result (λ e. spec.Stops forms.expr t.now at e) }
    ensures only_tree { (tree : Node) (n : ℕ) → spec.IsRead forms.expr (spec.file_in t.now at) (drop at t.now) tree n →
        spec.GivesTree at tree n result }
    ensures only_fault { (f : Fault) → spec.HasFault forms.expr (drop at t.now) f → spec.GivesFault f result }
{
    parse(alloc, t, at, Sort::Level(1))
}

/// The tree of a sort from a place on. The depth is gauged first, so that no tree is built that passes a limit.
fn parse(alloc: Global, t: &Tokens, at: usize, sort: Sort) -> Result<Parsed, Stop<Fault>>
    requires within { at < length t.now }
    requires sort { has_trees sort ≡ true }
    ensures ok { IfOk result (λ p. spec.IsParsed sort t.now at p) }
    ensures err { IfErr result (λ e. spec.Stops sort t.now at e) }
{
    match depth_fault(alloc, t, at, sort)? {
        Some(n) => Err(Stop::Fault(fault_up_to(t, 9, n))),
        None => parse_shallow(alloc, t, at, sort),
    }
}

/// The same where no limit on depth is passed.
fn parse_shallow(alloc: Global, t: &Tokens, at: usize, sort: Sort) -> Result<Parsed, Stop<Fault>>
    requires within { at < length t.now }
    requires sort { has_trees sort ≡ true }
    requires shallow { (m : ℕ) → IsDepthFault (trees_of sort) (drop at t.now) m → ⊥ }
    requires fits { TreesFit sort (drop at t.now) }
    ensures ok { IfOk result (λ p. spec.IsParsed sort t.now at p) }
    ensures err { IfErr result (λ e. spec.Stops sort t.now at e) }
{
    match read(alloc, file_at(t, at), t, at, sort)? {
        Outcome::Done(tree, next) => Ok(Parsed { tree, next }),
        Outcome::Stuck(n) => Err(Stop::Fault(fault_up_to(t, 8, n))),
    }
}

/// The number of the file of which the token at a place of the list is.
fn file_at(t: &Tokens, at: usize) -> u32
    requires { at < length t.now }
    ensures { result ≡ spec.file_in t.now at }
{
    place_at(t, at).file
}

/// The fault with this number at the token at a place of the list, or where none stands there at the last token.
fn fault_up_to(t: &Tokens, number: u8, n: usize) -> Fault
    requires { 0 < length t.now }
    ensures { result ≡ spec.fault_up_to t.now number n }
{
    let last = t.len() - 1;
    Fault {
        number,
        place: place_at(t, n.min(last)),
    }
}

/// The place of the token at a place of the list.
fn place_at(t: &Tokens, n: usize) -> Place
    requires { n < length t.now }
    ensures { result ≡ place_of t.now n }
{
    match t.get(n) {
        Some(token) => token.place,
        None => unreachable!(),
    }
}
