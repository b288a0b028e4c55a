//! Labels, jumps and the places of phis.

ghost use Rattle.std.specs.Prelude.{◌≡◌, not, bytes_eq};
ghost use Rattle.std.specs.List.{list_all};
ghost use Rattle.il_code.specs.Rules.{has_label, targets_pass, labels_known, block_labels_known, phi_labels_known, start_is_no_target, goes_to, is_edge, is_covered, covers, phi_is_placed, phis_are_placed, flow_is_right};

use super::names::{are_distinct, has_named};
use crate::types::{Block, IlItem, Jump, Phi, PhiArg};

/// Whether the labels of a function are known, its first block is no target, and its phis name exactly the predecessors of their blocks.
pub fn flow_is_right(i: &IlItem) -> bool
    ensures { result ≡ flow_is_right i.now }
{
    match i {
        IlItem::Data { .. } => true,
        IlItem::Function { blocks, .. } => {
            labels_known(blocks.as_slice())
                && start_is_no_target(blocks.as_slice())
                && phis_are_placed(blocks.as_slice())
        }
    }
}

fn has_label(blocks: &[Block], label: &[u8]) -> bool
    ensures { result ≡ has_label blocks.now label.now }
{
    has_named(label, blocks)
}

fn targets_known(blocks: &[Block], jump: &Jump) -> bool
    ensures { result ≡ targets_pass (has_label blocks.now) jump.now }
{
    match jump {
        Jump::Fall | Jump::Ret(_) | Jump::Hlt => true,
        Jump::Jmp(a) => has_label(blocks, a.bytes()),
        Jump::Jnz(_, a, b) => has_label(blocks, a.bytes()) && has_label(blocks, b.bytes()),
    }
}

fn phi_labels_known(blocks: &[Block], p: &Phi) -> bool
    ensures { result ≡ phi_labels_known blocks.now p.now }
{
    p.args
        .as_slice()
        .iter()
        .all(|a| has_label(blocks, a.label.bytes()))
}

fn labels_known(blocks: &[Block]) -> bool
    ensures { result ≡ labels_known blocks.now }
{
    blocks.iter().all(|b| block_labels_known(blocks, b))
}

fn block_labels_known(blocks: &[Block], b: &Block) -> bool
    ensures { result ≡ block_labels_known blocks.now b.now }
{
    targets_known(blocks, &b.jump) && phis_labels_known(blocks, b.phis.as_slice())
}

fn phis_labels_known(blocks: &[Block], phis: &[Phi]) -> bool
    ensures { result ≡ list_all (phi_labels_known blocks.now) phis.now }
{
    phis.iter().all(|p| phi_labels_known(blocks, p))
}

fn is_no_target(start: &[u8], jump: &Jump) -> bool
    ensures { result ≡ targets_pass (λ l. not (bytes_eq l start.now)) jump.now }
{
    match jump {
        Jump::Fall | Jump::Ret(_) | Jump::Hlt => true,
        Jump::Jmp(a) => !(a.bytes() == start),
        Jump::Jnz(_, a, b) => !(a.bytes() == start) && !(b.bytes() == start),
    }
}

fn start_is_no_target(blocks: &[Block]) -> bool
    ensures { result ≡ start_is_no_target blocks.now }
{
    match blocks {
        [] => true,
        [first, ..] => are_no_target(first.label.bytes(), blocks),
    }
}

fn are_no_target(start: &[u8], blocks: &[Block]) -> bool
    ensures { result ≡ list_all (λ b. targets_pass (λ l. not (bytes_eq l start.now)) b.jump) blocks.now }
{
    blocks.iter().all(|b| is_no_target(start, &b.jump))
}

/// Whether a jump, in front of these blocks, may go to the block with this label.
fn goes_to(label: &[u8], jump: &Jump, next: &[Block]) -> bool
    ensures { result ≡ goes_to label.now jump.now next.now }
{
    match jump {
        Jump::Fall => match next {
            [] => false,
            [b, ..] => b.label.bytes() == label,
        },
        Jump::Jmp(a) => a.bytes() == label,
        Jump::Jnz(_, a, b) => a.bytes() == label || b.bytes() == label,
        Jump::Ret(_) | Jump::Hlt => false,
    }
}

fn is_edge(from: &[u8], to: &[u8], blocks: &[Block]) -> bool
    ensures { result ≡ is_edge from.now to.now blocks.now }
{
    let mut left = blocks;
    'each: while let [b, rest @ ..] = left {
        if b.label.bytes() == from && goes_to(to, &b.jump, rest) {
            return true;
        }
        left = rest;
    }
    false
}

/// Whether the phi has an argument for the block, where the block goes to the phi's.
fn is_covered(args: &[PhiArg], to: &[u8], b: &Block, next: &[Block]) -> bool
    ensures { result ≡ is_covered args.now to.now b.now next.now }
{
    !goes_to(to, &b.jump, next) || has_named(b.label.bytes(), args)
}

fn covers(args: &[PhiArg], to: &[u8], blocks: &[Block]) -> bool
    ensures { result ≡ covers args.now to.now blocks.now }
{
    let mut left = blocks;
    'each: while let [b, rest @ ..] = left {
        if !is_covered(args, to, b, rest) {
            return false;
        }
        left = rest;
    }
    true
}

fn are_edges(args: &[PhiArg], to: &[u8], blocks: &[Block]) -> bool
    ensures { result ≡ list_all (λ a. is_edge a.label to.now blocks.now) args.now }
{
    args.iter().all(|a| is_edge(a.label.bytes(), to, blocks))
}

fn phi_is_placed(blocks: &[Block], to: &[u8], p: &Phi) -> bool
    ensures { result ≡ phi_is_placed blocks.now to.now p.now }
{
    let args = p.args.as_slice();
    are_distinct(args) && are_edges(args, to, blocks) && covers(args, to, blocks)
}

fn block_is_placed(blocks: &[Block], b: &Block) -> bool
    ensures { result ≡ list_all (phi_is_placed blocks.now b.now.label) b.now.phis }
{
    b.phis
        .as_slice()
        .iter()
        .all(|p| phi_is_placed(blocks, b.label.bytes(), p))
}

fn blocks_are_placed(blocks: &[Block], xs: &[Block]) -> bool
    ensures { result ≡ list_all (λ b. list_all (phi_is_placed blocks.now b.label) b.phis) xs.now }
{
    xs.iter().all(|b| block_is_placed(blocks, b))
}

fn phis_are_placed(blocks: &[Block]) -> bool
    ensures { result ≡ phis_are_placed blocks.now }
{
    match blocks {
        [] => true,
        [first, rest @ ..] => { first.phis.is_empty() && blocks_are_placed(blocks, rest) }
    }
}
