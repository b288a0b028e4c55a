//! Doing with a checked program what the command says.

ghost use Rattle.std.specs.Prelude.{◌≡◌, ◌<◌, ◌-◌, ◌^◌, [], length};
ghost use Rattle.harec_check.specs.Stops.{Checked};
ghost use Rattle.harec_check.specs.Programs.{IsChecked, IsFaultless};
ghost use Rattle.harec_check.specs.Whole.{IsWhole};
ghost use Rattle.harec_core.specs.Answers.{LeavesInput, LeavesOutput};
ghost use Rattle.harec_core.specs.Outside.{Count, Stands, received, sent};
ghost use Rattle.harec_core.specs.Stages.{ArgumentsOf, Emits, IsFound, command_on, found_answer};

use crate::asked::Purpose;
use crate::compile::build;
use crate::done::Done;
use crate::piece::write;
use crate::run::run_text;
use hare_sources::Sources;
use harec_check::Stopped;
use hx_base::{Bytes, Text};
use hx_io::{Sink, Source};
use std::alloc::Global;

/// Checks no more; or makes the text of the checked program of these files, and writes it out or runs it.
pub fn carry_out<I: Source, O: Sink>(
    alloc: Global,
    paths: &[Text],
    purpose: Purpose<'_>,
    srcs: &Sources,
    input: &mut I,
    out: &mut O,
    fill: u8,
    text: &mut Bytes,
) -> Result<Done, Stopped>
    requires empty { text.old ≡ [] }
    requires paired { length srcs.now ≡ length paths.now }
    requires checked { (c : Checked) × IsChecked paths.now srcs.now c × IsFaultless paths.now srcs.now c × IsWhole c }
    requires few { ArgumentsOf purpose }
    requires count { O.faults out.old < 2 ^ 64 - 1 }
    ensures cause { (files : Count) → Stands files
        → IsFound (record {
          command = command_on paths.now purpose.entry;
          sources = srcs.now;
          fill = fill;
          text = text.new;
          files = files;
          input = received (I.faults input.old) (I.faults input.new) (I.left input.old) (I.left input.new);
          out = sent (O.faults out.old) (O.faults out.new) (O.written out.old) (O.written out.new);
        }) paths.now result }
    ensures unread { LeavesInput (command_on paths.now purpose.entry) (found_answer result) input.old input.new }
    ensures leaves { LeavesOutput (command_on paths.now purpose.entry) (found_answer result) out.old out.new }
{
    match purpose {
        Purpose::Check => Ok(Done::Accepted),
        Purpose::Emit => {
            build(alloc, paths, srcs, text)?;
            Ok(emit(text.bytes(), out))
        }
        Purpose::Run { units, args } => {
            build(alloc, paths, srcs, text)?;
            let ran = run_text(alloc, text.bytes(), args, fill, units, input, out)?;
            Ok(Done::Ended(ran))
        }
    }
}

/// Writes a text out.
pub fn emit<O: Sink>(text: &[u8], out: &mut O) -> Done
    requires { O.faults out.old < 2 ^ 64 - 1 }
    ensures { Emits text.now (sent (O.faults out.old) (O.faults out.new) (O.written out.old) (O.written out.new)) result }
{
    match write(out, text) {
        Ok(()) => Done::Accepted,
        Err(_) => Done::Cut,
    }
}
