//! The temporaries that blocks set and read.

ghost use Rattle.std.specs.Prelude.{◌≡◌, [], ◌++◌, true, false, not, option_to_list, OnOk, IfOk};
ghost use Rattle.std.specs.List.{list_any};
ghost use Rattle.il_code.specs.Shaped.{falls};
ghost use Rattle.il_tight.specs.Tight.{assigns, block_assigns, is_known, with_name, with_setting, with_settings, with_all_settings, with_params, with_value, with_option, with_args, with_inst, with_insts, with_jump, with_reads, read_by, reached, dropped, keeps_settings, set_by, zero, lacking_one, lacking_at, lacking, all_lacking, stops, labelled, last_block, unset};

use crate::labels::{falls, stays};
use hx_base::{Class, Text};
use hx_table::Table;
use il_code::{Block, IlArg, IlOp, IlParam, IlValue, Inst, Insts, Jump, Phis};
use std::alloc::{AllocError, Global};

/// Whether an instruction sets a temporary.
fn sets_one(inst: &Inst) -> bool
    ensures { result ≡ assigns inst.now }
{
    match inst {
        Inst::Set { .. } => true,
        Inst::Call { result, .. } => result.is_some(),
        Inst::Store { .. } | Inst::Blit { .. } => false,
    }
}

/// Whether a block sets a temporary.
fn sets(b: &Block) -> bool
    ensures { result ≡ block_assigns b.now }
{
    let mut left = b.insts.as_slice();
    'each: while let [i, more @ ..] = left {
        if sets_one(i) {
            return true;
        }
        left = more;
    }
    false
}

/// Whether what does not stay sets no temporary.
fn keeps_settings(known: &Table<'_, ()>, blocks: &[Block]) -> bool
    ensures { result ≡ keeps_settings (is_known known.now) false blocks.now }
{
    let mut into = false;
    let mut left = blocks;
    'each: while let [b, more @ ..] = left {
        if into || stays(known, &b.label) {
            into = falls(&b.jump);
        } else if sets(b) {
            return false;
        }
        left = more;
    }
    true
}

/// Adds the temporary that an instruction sets, if it sets one.
fn add_setting<'a>(known: &mut Table<'a, ()>, inst: &'a Inst) -> Result<(), AllocError>
    ensures { OnOk result (known.new ≡ with_setting known.old inst.now) }
{
    match inst {
        Inst::Set { temp, .. } => known.add(temp.bytes(), ()),
        Inst::Call { result, .. } => match result {
            None => Ok(()),
            Some(p) => known.add(p.name.bytes(), ()),
        },
        Inst::Store { .. } | Inst::Blit { .. } => Ok(()),
    }
}

/// Adds the temporaries that instructions set.
fn add_settings<'a>(known: &mut Table<'a, ()>, insts: &'a [Inst]) -> Result<(), AllocError>
    ensures { OnOk result (known.new ≡ with_settings known.old insts.now) }
{
    let mut left = insts;
    'each: while let [i, more @ ..] = left {
        add_setting(known, i)?;
        left = more;
    }
    Ok(())
}

/// Adds the temporaries that blocks set which stay.
fn add_all_settings<'a>(
    known: &mut Table<'a, ()>,
    labels: &Table<'_, ()>,
    blocks: &'a [Block],
) -> Result<(), AllocError>
    ensures { OnOk result (known.new ≡ with_all_settings known.old (reached (is_known labels.now) false blocks.now)) }
{
    let mut into = false;
    let mut left = blocks;
    'each: while let [b, more @ ..] = left {
        if into || stays(labels, &b.label) {
            add_settings(known, b.insts.as_slice())?;
            into = falls(&b.jump);
        }
        left = more;
    }
    Ok(())
}

/// Adds parameters.
fn add_params<'a>(known: &mut Table<'a, ()>, params: &'a [IlParam]) -> Result<(), AllocError>
    ensures { OnOk result (known.new ≡ with_params known.old params.now) }
{
    let mut left = params;
    'each: while let [p, more @ ..] = left {
        known.add(p.name.bytes(), ())?;
        left = more;
    }
    Ok(())
}

/// The temporaries that parameters set, and blocks which stay.
fn set_by<'a>(
    alloc: Global,
    params: &'a [IlParam],
    labels: &Table<'_, ()>,
    blocks: &'a [Block],
) -> Result<Table<'a, ()>, AllocError>
    ensures { IfOk result (λ t. t ≡ set_by params.now (is_known labels.now) blocks.now) }
{
    let mut known = Table::new(alloc);
    add_params(&mut known, params)?;
    add_all_settings(&mut known, labels, blocks)?;
    Ok(known)
}

/// Adds the temporary that a value is, if it is one.
fn add_value<'a>(known: &mut Table<'a, ()>, value: &'a IlValue) -> Result<(), AllocError>
    ensures { OnOk result (known.new ≡ with_value known.old value.now) }
{
    match value {
        IlValue::Temp(t) => known.add(t.bytes(), ()),
        IlValue::Number(_) | IlValue::Symbol(_) => Ok(()),
    }
}

/// The same of a value that may be missing.
fn add_option<'a>(known: &mut Table<'a, ()>, value: &'a Option<IlValue>) -> Result<(), AllocError>
    ensures { OnOk result (known.new ≡ with_option known.old value.now) }
{
    match value {
        None => Ok(()),
        Some(v) => add_value(known, v),
    }
}

/// Adds the temporaries that are arguments of a call.
fn add_args<'a>(known: &mut Table<'a, ()>, args: &'a [IlArg]) -> Result<(), AllocError>
    ensures { OnOk result (known.new ≡ with_args known.old args.now) }
{
    let mut left = args;
    'each: while let [a, more @ ..] = left {
        add_value(known, &a.value)?;
        left = more;
    }
    Ok(())
}

/// Adds the temporaries that an instruction reads.
fn add_inst<'a>(known: &mut Table<'a, ()>, inst: &'a Inst) -> Result<(), AllocError>
    ensures { OnOk result (known.new ≡ with_inst known.old inst.now) }
{
    match inst {
        Inst::Set { a, b, .. } => {
            add_value(known, a)?;
            add_option(known, b)
        }
        Inst::Store { value, at, .. } => {
            add_value(known, value)?;
            add_value(known, at)
        }
        Inst::Blit { from, to, .. } => {
            add_value(known, from)?;
            add_value(known, to)
        }
        Inst::Call { args, .. } => add_args(known, args.as_slice()),
    }
}

/// Adds the temporaries that instructions read.
fn add_insts<'a>(known: &mut Table<'a, ()>, insts: &'a [Inst]) -> Result<(), AllocError>
    ensures { OnOk result (known.new ≡ with_insts known.old insts.now) }
{
    let mut left = insts;
    'each: while let [i, more @ ..] = left {
        add_inst(known, i)?;
        left = more;
    }
    Ok(())
}

/// Adds the temporary that a jump reads, if it reads one.
fn add_jump<'a>(known: &mut Table<'a, ()>, jump: &'a Jump) -> Result<(), AllocError>
    ensures { OnOk result (known.new ≡ with_jump known.old jump.now) }
{
    match jump {
        Jump::Jnz(v, _, _) => add_value(known, v),
        Jump::Ret(v) => add_option(known, v),
        Jump::Fall | Jump::Jmp(_) | Jump::Hlt => Ok(()),
    }
}

/// The temporaries that blocks read which stay.
fn read_by<'a>(
    alloc: Global,
    labels: &Table<'_, ()>,
    blocks: &'a [Block],
) -> Result<Table<'a, ()>, AllocError>
    ensures { IfOk result (λ t. t ≡ read_by (is_known labels.now) blocks.now) }
{
    let mut known = Table::new(alloc);
    let mut into = false;
    let mut left = blocks;
    'each: while let [b, more @ ..] = left {
        if into || stays(labels, &b.label) {
            add_insts(&mut known, b.insts.as_slice())?;
            add_jump(&mut known, &b.jump)?;
            into = falls(&b.jump);
        }
        left = more;
    }
    Ok(known)
}

/// The same text again.
fn same_text(alloc: Global, t: &Text) -> Result<Text, AllocError>
    ensures { IfOk result (λ s. s ≡ t.now) }
{
    let mut text = Text::new(alloc);
    text.append(t)?;
    Ok(text)
}

/// A setting of a temporary to 0.
fn zero(alloc: Global, temp: &Text, class: Class) -> Result<Inst, AllocError>
    ensures { IfOk result (λ i. i ≡ zero temp.now class) }
{
    let temp = same_text(alloc, temp)?;
    Ok(Inst::Set {
        temp,
        class,
        op: IlOp::Copy,
        a: IlValue::Number(0),
        b: None,
    })
}

/// Puts a setting of a temporary behind instructions, where it is read and not set yet.
fn put_lacking_one(
    alloc: Global,
    out: &mut Insts,
    read: &Table<'_, ()>,
    set: &Table<'_, ()>,
    temp: &Text,
    class: Class,
) -> Result<(), AllocError>
    ensures { OnOk result (out.new ≡ out.old ++ lacking_one read.now set.now temp.now class) }
{
    if stays(read, temp) && !stays(set, temp) {
        out.push(zero(alloc, temp, class)?)?;
    }
    Ok(())
}

/// The same of the temporary that an instruction sets, if it sets one.
fn put_lacking_at(
    alloc: Global,
    out: &mut Insts,
    read: &Table<'_, ()>,
    set: &Table<'_, ()>,
    inst: &Inst,
) -> Result<(), AllocError>
    ensures { OnOk result (out.new ≡ out.old ++ lacking_at read.now set.now inst.now) }
{
    match inst {
        Inst::Set { temp, class, .. } => put_lacking_one(alloc, out, read, set, temp, *class),
        Inst::Call { result, .. } => match result {
            None => Ok(()),
            Some(p) => put_lacking_one(alloc, out, read, set, &p.name, p.class),
        },
        Inst::Store { .. } | Inst::Blit { .. } => Ok(()),
    }
}

/// The same of all temporaries that instructions set, which are set from then on.
#[tactic(auto, using(crate::proofs::KeptBlocks::Lists::regroup))]
fn put_lacking<'a>(
    alloc: Global,
    out: &mut Insts,
    read: &Table<'_, ()>,
    set: &mut Table<'a, ()>,
    insts: &'a [Inst],
) -> Result<(), AllocError>
    ensures out { OnOk result (out.new ≡ out.old ++ lacking read.now set.old insts.now) }
    ensures set { OnOk result (set.new ≡ with_settings set.old insts.now) }
{
    let mut left = insts;
    'each: while let [i, more @ ..] = left {
        put_lacking_at(alloc, out, read, set, i)?;
        add_setting(set, i)?;
        left = more;
    }
    Ok(())
}

/// The same of all temporaries that blocks set which do not stay.
#[tactic(auto, using(crate::proofs::KeptBlocks::Lists::regroup))]
fn put_all_lacking<'a>(
    alloc: Global,
    out: &mut Insts,
    read: &Table<'_, ()>,
    set: &mut Table<'a, ()>,
    labels: &Table<'_, ()>,
    blocks: &'a [Block],
) -> Result<(), AllocError>
    ensures { OnOk result (out.new ≡ out.old ++ all_lacking read.now set.old (dropped (is_known labels.now) false blocks.now)) }
{
    let mut into = false;
    let mut left = blocks;
    'each: while let [b, more @ ..] = left {
        if into || stays(labels, &b.label) {
            into = falls(&b.jump);
        } else {
            put_lacking(alloc, out, read, set, b.insts.as_slice())?;
        }
        left = more;
    }
    Ok(())
}

/// Settings of the temporaries that are read by blocks which stay and not set by these or by parameters, as far as other blocks set them.
fn all_lacking(
    alloc: Global,
    params: &[IlParam],
    labels: &Table<'_, ()>,
    blocks: &[Block],
) -> Result<Insts, AllocError>
    ensures { IfOk result (λ is. is ≡ all_lacking (read_by (is_known labels.now) blocks.now) (set_by params.now (is_known labels.now) blocks.now) (dropped (is_known labels.now) false blocks.now)) }
{
    let read = read_by(alloc, labels, blocks)?;
    let mut set = set_by(alloc, params, labels, blocks)?;
    let mut out = Insts::new(alloc);
    put_all_lacking(alloc, &mut out, &read, &mut set, labels, blocks)?;
    Ok(out)
}

/// Whether there are blocks, and control does not fall out of them.
fn stops(blocks: &[Block]) -> bool
    ensures { result ≡ stops false blocks.now }
{
    let mut stopped = false;
    let mut left = blocks;
    'each: while let [b, more @ ..] = left {
        stopped = !falls(&b.jump);
        left = more;
    }
    stopped
}

/// A block of instructions with a label, if there are some.
#[tactic(auto, using(crate::proofs::KeptBlocks::Lists::not_labelled, crate::proofs::KeptBlocks::Lists::is_labelled))]
fn labelled(alloc: Global, label: &Text, insts: Insts) -> Result<Option<Block>, AllocError>
    ensures { IfOk result (λ b. option_to_list b ≡ labelled label.now insts) }
{
    if insts.is_empty() {
        return Ok(None);
    }
    let label = same_text(alloc, label)?;
    Ok(Some(Block {
        label,
        phis: Phis::new(alloc),
        insts,
        jump: Jump::Hlt,
    }))
}

/// The same under the label of the first block that does not stay.
fn last_block(
    alloc: Global,
    labels: &Table<'_, ()>,
    blocks: &[Block],
    insts: Insts,
) -> Result<Option<Block>, AllocError>
    ensures { IfOk result (λ b. option_to_list b ≡ last_block (dropped (is_known labels.now) false blocks.now) insts) }
{
    let mut into = false;
    let mut left = blocks;
    'each: while let [b, more @ ..] = left {
        if into || stays(labels, &b.label) {
            into = falls(&b.jump);
        } else {
            return labelled(alloc, &b.label, insts);
        }
        left = more;
    }
    Ok(None)
}

/// A block to stand behind those that stay, where these read temporaries that only others set: it sets those.
pub fn unset(
    alloc: Global,
    params: &[IlParam],
    labels: &Table<'_, ()>,
    blocks: &[Block],
) -> Result<Option<Block>, AllocError>
    ensures { IfOk result (λ b. option_to_list b ≡ unset params.now (is_known labels.now) blocks.now) }
{
    if !stops(blocks) || keeps_settings(labels, blocks) {
        return Ok(None);
    }
    let insts = all_lacking(alloc, params, labels, blocks)?;
    last_block(alloc, labels, blocks, insts)
}
