//! Temporaries: what sets them, and at which class.

ghost use Rattle.std.specs.Prelude.{◌≡◌};
ghost use Rattle.std.specs.List.{list_all, list_any};
ghost use Rattle.il_code.specs.Rules.{same_class, other_class, sets, result_sets, inst_sets, block_sets, is_set, has_one_class, inst_has_one_class, block_has_one_class, each_has_one_class};

use crate::types::{Block, IlParam, Inst, Phi};
use hx_base::{Class, Text};

/// Whether two classes are one.
pub fn same_class(a: Class, b: Class) -> bool
    ensures { result ≡ same_class a b }
{
    match (a, b) {
        (Class::W, Class::W) => true,
        (Class::W, Class::L) => false,
        (Class::L, Class::W) => false,
        (Class::L, Class::L) => true,
    }
}

fn other_class(c: Class) -> Class
    ensures { result ≡ other_class c }
{
    match c {
        Class::W => Class::L,
        Class::L => Class::W,
    }
}

fn sets(name: &[u8], class: Class, temp: &Text, c: Class) -> bool
    ensures { result ≡ sets name.now class temp.now c }
{
    temp.bytes() == name && same_class(c, class)
}

fn result_sets(name: &[u8], class: Class, p: &Option<IlParam>) -> bool
    ensures { result ≡ result_sets name.now class p.now }
{
    match p {
        None => false,
        Some(p) => sets(name, class, &p.name, p.class),
    }
}

fn inst_sets(name: &[u8], class: Class, i: &Inst) -> bool
    ensures { result ≡ inst_sets name.now class i.now }
{
    match i {
        Inst::Set { temp, class: c, .. } => sets(name, class, temp, *c),
        Inst::Store { .. } | Inst::Blit { .. } => false,
        Inst::Call { result: p, .. } => result_sets(name, class, p),
    }
}

fn phis_set(name: &[u8], class: Class, xs: &[Phi]) -> bool
    ensures { result ≡ list_any (λ p. sets name.now class p.temp p.class) xs.now }
{
    xs.iter().any(|x| sets(name, class, &x.temp, x.class))
}

fn insts_set(name: &[u8], class: Class, xs: &[Inst]) -> bool
    ensures { result ≡ list_any (inst_sets name.now class) xs.now }
{
    xs.iter().any(|x| inst_sets(name, class, x))
}

fn params_set(name: &[u8], class: Class, xs: &[IlParam]) -> bool
    ensures { result ≡ list_any (λ p. sets name.now class p.name p.class) xs.now }
{
    xs.iter().any(|x| sets(name, class, &x.name, x.class))
}

fn blocks_set(name: &[u8], class: Class, xs: &[Block]) -> bool
    ensures { result ≡ list_any (block_sets name.now class) xs.now }
{
    xs.iter().any(|x| block_sets(name, class, x))
}

fn block_sets(name: &[u8], class: Class, b: &Block) -> bool
    ensures { result ≡ block_sets name.now class b.now }
{
    phis_set(name, class, b.phis.as_slice()) || insts_set(name, class, b.insts.as_slice())
}

/// Whether a parameter, a phi or an instruction of the function sets the temporary at the class.
pub fn is_set(params: &[IlParam], blocks: &[Block], name: &[u8], class: Class) -> bool
    ensures { result ≡ is_set params.now blocks.now name.now class }
{
    params_set(name, class, params) || blocks_set(name, class, blocks)
}

fn has_one_class(params: &[IlParam], blocks: &[Block], name: &Text, class: Class) -> bool
    ensures { result ≡ has_one_class params.now blocks.now name.now class }
{
    !is_set(params, blocks, name.bytes(), other_class(class))
}

fn inst_has_one_class(params: &[IlParam], blocks: &[Block], i: &Inst) -> bool
    ensures { result ≡ inst_has_one_class params.now blocks.now i.now }
{
    match i {
        Inst::Set { temp, class, .. } => has_one_class(params, blocks, temp, *class),
        Inst::Store { .. } | Inst::Blit { .. } => true,
        Inst::Call { result: None, .. } => true,
        Inst::Call {
            result: Some(p),
            ..
        } => has_one_class(params, blocks, &p.name, p.class),
    }
}

fn phis_have_one_class(params: &[IlParam], blocks: &[Block], xs: &[Phi]) -> bool
    ensures { result ≡ list_all (λ p. has_one_class params.now blocks.now p.temp p.class) xs.now }
{
    xs.iter()
        .all(|x| has_one_class(params, blocks, &x.temp, x.class))
}

fn insts_have_one_class(params: &[IlParam], blocks: &[Block], xs: &[Inst]) -> bool
    ensures { result ≡ list_all (inst_has_one_class params.now blocks.now) xs.now }
{
    xs.iter().all(|x| inst_has_one_class(params, blocks, x))
}

fn params_have_one_class(params: &[IlParam], blocks: &[Block], xs: &[IlParam]) -> bool
    ensures { result ≡ list_all (λ p. has_one_class params.now blocks.now p.name p.class) xs.now }
{
    xs.iter()
        .all(|x| has_one_class(params, blocks, &x.name, x.class))
}

fn blocks_have_one_class(params: &[IlParam], blocks: &[Block], xs: &[Block]) -> bool
    ensures { result ≡ list_all (block_has_one_class params.now blocks.now) xs.now }
{
    xs.iter().all(|x| block_has_one_class(params, blocks, x))
}

fn block_has_one_class(params: &[IlParam], blocks: &[Block], b: &Block) -> bool
    ensures { result ≡ block_has_one_class params.now blocks.now b.now }
{
    phis_have_one_class(params, blocks, b.phis.as_slice())
        && insts_have_one_class(params, blocks, b.insts.as_slice())
}

/// Whether each temporary of a function has one class.
pub fn each_has_one_class(params: &[IlParam], blocks: &[Block]) -> bool
    ensures { result ≡ each_has_one_class params.now blocks.now }
{
    params_have_one_class(params, blocks, params) && blocks_have_one_class(params, blocks, blocks)
}
