//! Running a module.

ghost use Rattle.std.specs.Prelude.{◌≡◌, ℕ, List, IfOk, OnErr};
ghost use Rattle.il_code.specs.declared.types.Module.{Module as Code};
ghost use Rattle.il_code.specs.Rules.{IsValid};
ghost use Rattle.harec_words.specs.Commands.{AreArguments};
ghost use Rattle.harec_core.specs.Outside.{received, sent};
ghost use Rattle.harec_core.specs.Stages.{IsRunOf, IsTextOf};

use crate::done::Ran;
use hx_base::Text;
use hx_io::{Sink, Source};
use il_code::Module;
use il_read::{law_recoverable, read_printed};
use il_step::Machine;
use std::alloc::{AllocError, Global};

/// What the machine answers for the module that a text is, with these arguments, a fill byte and a budget of units. What runs is read back
/// from the text. Input is read and output is written as the module asks for it; neither is called where memory runs out before the run.
pub fn run_text<I: Source, O: Sink>(
    alloc: Global,
    text: &[u8],
    args: &[Text],
    fill: u8,
    units: u64,
    input: &mut I,
    out: &mut O,
) -> Result<Ran, AllocError>
    requires text { (source : List ℕ) × (m : Code) × IsTextOf source text.now m }
    requires few { AreArguments args.now }
    ensures ran { (source : List ℕ) (m : Code) → IsTextOf source text.now m → IfOk result (IsRunOf
        (record { program = m; args = args.now; fill = fill; units = units })
        (received (I.faults input.old) (I.faults input.new) (I.left input.old) (I.left input.new))
        (sent (O.faults out.old) (O.faults out.new) (O.written out.old) (O.written out.new))) }
    ensures unread { OnErr result (input.new ≡ input.old) }
    ensures unwritten { OnErr result (out.new ≡ out.old) }
{
    // The text is that of a valid module, and so of a recoverable one.
    law_recoverable();
    let Some(module) = read_printed(alloc, text)? else {
        unreachable!();
    };
    run_module(alloc, &module, args, fill, units, input, out)
}

/// The same of a valid module.
pub fn run_module<I: Source, O: Sink>(
    alloc: Global,
    m: &Module,
    args: &[Text],
    fill: u8,
    units: u64,
    input: &mut I,
    out: &mut O,
) -> Result<Ran, AllocError>
    requires valid { IsValid m.now }
    requires few { AreArguments args.now }
    ensures ran { IfOk result (IsRunOf
        (record { program = m.now; args = args.now; fill = fill; units = units })
        (received (I.faults input.old) (I.faults input.new) (I.left input.old) (I.left input.new))
        (sent (O.faults out.old) (O.faults out.new) (O.written out.old) (O.written out.new))) }
    ensures unread { OnErr result (input.new ≡ input.old) }
    ensures unwritten { OnErr result (out.new ≡ out.old) }
{
    let mut machine = Machine::new(alloc, m, args, fill)?;
    let end = machine.run(units, input, out);
    Ok(Ran { end, machine })
}
