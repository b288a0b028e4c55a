//! The laws, each a function that does nothing.

ghost use Rattle.flat_laws.specs.Calls.{KeepsItsCall};
ghost use Rattle.flat_laws.specs.Counts.{Counts};
ghost use Rattle.flat_laws.specs.Frames.{CallsStayApart};
ghost use Rattle.flat_laws.specs.Heaps.{KeepsTheHeap};
ghost use Rattle.flat_laws.specs.Names.{FunctionsAreFound, RuntimeIsNotTaken};
ghost use Rattle.flat_laws.specs.Runs.{OfAllCode};
ghost use Rattle.flat_laws.specs.Stacks.{KeepsTheStack};
ghost use Rattle.flat_laws.specs.Starts.{ArgumentsStand, GlobalsStand, ProgramsAreLaidOut};

/// In a well formed program no function has a name of the runtime, so that a call of one is a call of the runtime.
pub fn law_runtime_is_not_taken()
    ensures { RuntimeIsNotTaken }
{}

/// In a well formed program each function is the one that its name calls.
pub fn law_functions_are_found()
    ensures { FunctionsAreFound }
{}

/// As a well formed program begins, each global stands at the address of its name, at its alignment, and all of it is mapped.
pub fn law_globals_stand()
    ensures { GlobalsStand }
{}

/// As a program begins, each argument is in memory, and its record has its address and, twice, its length.
pub fn law_arguments_stand()
    ensures { ArgumentsStand }
{}

/// As a well formed program begins whose arguments have room, globals, records and arguments share no address, and nothing else is mapped.
pub fn law_programs_are_laid_out()
    ensures { ProgramsAreLaidOut }
{}

/// However code ends, the fill byte is what it was, steps and the most that calls cost have not become fewer, and what they cost is not
/// above that most.
pub fn law_code_counts()
    ensures { OfAllCode Counts }
{}

/// Code that goes on, leaves or returns does so in the call in which it began.
pub fn law_code_keeps_its_call()
    ensures { OfAllCode KeepsItsCall }
{}

/// However code ends, no block of the heap begins below earlier ones, and live blocks stay apart.
pub fn law_code_keeps_the_heap()
    ensures { OfAllCode KeepsTheHeap }
{}

/// Below the heap, code that goes on, leaves or returns has mapped what was mapped, and nothing else.
pub fn law_code_keeps_the_stack()
    ensures { OfAllCode KeepsTheStack }
{}

/// A call maps the frame of its function, and nothing of what the function had above the caller is mapped behind it.
pub fn law_calls_stay_apart()
    ensures { CallsStayApart }
{}
