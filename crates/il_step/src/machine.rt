//! The machine.

ghost use Rattle.std.specs.Prelude.{◌≡◌, ℕ, false, Some, IfOk};
ghost use Rattle.il_code.specs.declared.types.Module.{Module as Code};
ghost use Rattle.il_code.specs.MachineLaws.{input_of};
ghost use Rattle.il_code.specs.Rules.{IsValid};
ghost use Rattle.il_code.specs.Run.{Run};
ghost use Rattle.il_engine.specs.Keeps.{end_of};
ghost use Rattle.il_load.specs.Arguments.{AreFew};
ghost use Rattle.il_step.specs.declared.end.End.{End as Answer};
ghost use Rattle.il_step.specs.Ends.{abort_text, answer_of, breaks, final_of, units_used};
ghost use Rattle.il_step.specs.Runs.{Counts, IsLeft, Runs, RunsOnAny, StandsAtStart, outside};

use crate::end::End;
use crate::live::Live;
use crate::progress::Progress;
use crate::stop::Stop;
use hx_base::Text;
use hx_io::{Sink, Source};
use il_acts::Heap;
use il_code::Module;
use il_decode::decode;
use il_engine::{Ended, Engine};
use il_load::load;
use std::alloc::{AllocError, Global};
use std::marker::Model;

/// A run of a module.
#[derive(Drop)]
pub struct Machine {
    progress: Progress,
    used: u64,
}

impl Model for Machine {
    ghost use Rattle.il_step.specs.Stands.{Reached, IsSoundAt};

    ghost Value = { Reached };

    ghost view = { λ a. record { progress = a.progress; used = a.used } };

    ghost invariant = { λ a. IsSoundAt a.progress };
}

impl Machine {
    ghost use Rattle.il_step.specs.Stands.{StandsAt, answered, is_broken};

    /// A machine at the start of a valid module, with these arguments of the program. Bytes of memory and temporaries hold `fill` before
    /// they are set. It takes the memory of data, arguments and the first call, and fails for want of memory alone. Where that call costs
    /// more than the stack may, the machine has ended.
    pub fn new(alloc: Global, m: &Module, args: &[Text], fill: u8) -> Result<Machine, AllocError>
        requires valid { IsValid m.now }
        requires few { AreFew args.now }
        ensures stands { IfOk result (λ a. StandsAtStart (λ r. StandsAt m.now a r) m.now args.now fill) }
        ensures whole { IfOk result (λ a. is_broken a.progress ≡ false) }
    {
        let code = decode(alloc, m, fill)?;
        let memory = load(alloc, m, args, fill)?;
        let Some(engine) = Engine::start(alloc, &code, memory, fill)? else {
            return Ok(Machine {
                progress: Progress::Ended(Ended::StackFull),
                used: 0,
            });
        };
        let live = Live {
            alloc,
            code,
            engine,
            heap: Heap::new(alloc),
            arguments: args.len() as u32,
        };
        Ok(Machine {
            progress: Progress::Live(live),
            used: 0,
        })
    }

    /// Runs the module with a budget of so many units more than are used, and answers how that comes out. It reads from `input` and writes
    /// to `out`. Where the run has ended, the answer stays, and neither is called.
    pub fn run<I: Source, O: Sink>(&mut self, units: u64, input: &mut I, out: &mut O) -> End
        requires whole { is_broken self.old.progress ≡ false }
        ensures done { (m : Code) (r : Run) → StandsAt m self.old r → IsLeft (I.left input.old) (input_of r) →
            Runs (StandsAt m self.new) m units r result
            (outside (I.left input.old) (O.written out.old) (I.faults input.old) (O.faults out.old))
            (outside (I.left input.new) (O.written out.new) (I.faults input.new) (O.faults out.new)) }
        ensures any { (m : Code) (r : Run) → StandsAt m self.old r → RunsOnAny (StandsAt m self.new) m units r result
            (outside (I.left input.old) (O.written out.old) (I.faults input.old) (O.faults out.old))
            (outside (I.left input.new) (O.written out.new) (I.faults input.new) (O.faults out.new)) }
        ensures counts { Counts result
            (outside (I.left input.old) (O.written out.old) (I.faults input.old) (O.faults out.old))
            (outside (I.left input.new) (O.written out.new) (I.faults input.new) (O.faults out.new)) }
        ensures broken { is_broken self.new.progress ≡ breaks result }
        ensures ended { answered self.new.progress ≡ final_of result }
        ensures stays { (e : Answer) → answered self.old.progress ≡ Some e →
            (result ≡ e) × (self.new ≡ self.old) × (input.new ≡ input.old) × (out.new ≡ out.old) }
    {
        let live = match &mut self.progress {
            Progress::Live(live) => live,
            Progress::Ended(end) => return answer_of(*end),
            Progress::Aborted(_) => return End::Abort,
            Progress::Broken => unreachable!(),
        };
        let mut left = units;
        let stop = live.go(&mut left, input, out);
        self.used = self.used.saturating_add(units - left);
        match stop {
            Err(AllocError) => End::Memory,
            Ok(Stop::Spent(over)) => {
                self.used = self.used.saturating_add(over);
                End::Spent
            }
            Ok(Stop::Ends(end)) => {
                self.progress = Progress::Ended(end);
                answer_of(end)
            }
            Ok(Stop::Aborts(text)) => {
                self.progress = Progress::Aborted(text);
                End::Abort
            }
            Ok(Stop::ReadFault) => {
                self.progress = Progress::Broken;
                End::ReadFault
            }
            Ok(Stop::WriteFault) => {
                self.progress = Progress::Broken;
                End::WriteFault
            }
        }
    }

    /// Whether a read or a write has failed: then the machine is not to be run again.
    pub fn broken(&self) -> bool
        ensures { result ≡ is_broken self.now.progress }
    {
        matches!(self.progress, Progress::Broken)
    }

    /// The units that the run has used, up to 2^64 - 1.
    pub fn used(&self) -> u64
        ensures value { (m : Code) (r : Run) → StandsAt m self.now r → result ≡ units_used r }
    {
        self.used
    }

    /// The text with which the run has aborted; empty where it has not.
    pub fn abort_text(&self) -> &[u8]
        ensures value { (m : Code) (r : Run) → StandsAt m self.now r → result.now ≡ abort_text r }
    {
        match &self.progress {
            Progress::Aborted(text) => text.bytes(),
            _ => &[],
        }
    }
}

// The answer for an end.
fn answer_of(end: Ended) -> End
    ensures { result ≡ answer_of (end_of end) }
{
    match end {
        Ended::Exit(status) => End::Exit(status),
        Ended::Fault(fault) => End::Fault(fault),
        Ended::StackFull => End::StackFull,
    }
}
