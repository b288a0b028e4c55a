//! The functions of the runtime: their names, and the classes of their parameters and results.

ghost use Rattle.std.specs.Prelude.{◌≡◌};
ghost use Rattle.hx_runtime.specs.Functions.{runtime_function, runtime_params, runtime_result, is_reserved};

use hx_base::Class;

/// A function of the runtime.
#[derive(Clone, Copy, Debug, PartialEq, Eq)]
pub enum RuntimeFunction {
    Puts,
    Write,
    Read,
    Malloc,
    Free,
    Move,
    Same,
    Abort,
    Exit,
    Nargs,
    Arg,
}

impl RuntimeFunction {
    /// The function with a symbol, if there is one.
    pub fn named(name: &[u8]) -> Option<RuntimeFunction>
        ensures { result ≡ runtime_function name.now }
    {
        if b"rt.puts".as_slice() == name {
            Some(RuntimeFunction::Puts)
        } else if b"rt.write".as_slice() == name {
            Some(RuntimeFunction::Write)
        } else if b"rt.read".as_slice() == name {
            Some(RuntimeFunction::Read)
        } else if b"rt.malloc".as_slice() == name {
            Some(RuntimeFunction::Malloc)
        } else if b"rt.free".as_slice() == name {
            Some(RuntimeFunction::Free)
        } else if b"rt.move".as_slice() == name {
            Some(RuntimeFunction::Move)
        } else if b"rt.same".as_slice() == name {
            Some(RuntimeFunction::Same)
        } else if b"rt.abort".as_slice() == name {
            Some(RuntimeFunction::Abort)
        } else if b"rt.exit".as_slice() == name {
            Some(RuntimeFunction::Exit)
        } else if b"rt.nargs".as_slice() == name {
            Some(RuntimeFunction::Nargs)
        } else if b"rt.arg".as_slice() == name {
            Some(RuntimeFunction::Arg)
        } else {
            None
        }
    }

    /// The classes of its parameters.
    pub fn params(self) -> &'static [Class]
        ensures { result.now ≡ runtime_params self }
    {
        match self {
            RuntimeFunction::Puts
            | RuntimeFunction::Write
            | RuntimeFunction::Read
            | RuntimeFunction::Abort => &[Class::L, Class::L],
            RuntimeFunction::Malloc | RuntimeFunction::Free | RuntimeFunction::Arg => &[Class::L],
            RuntimeFunction::Move | RuntimeFunction::Same => &[Class::L, Class::L, Class::L],
            RuntimeFunction::Exit => &[Class::W],
            RuntimeFunction::Nargs => &[],
        }
    }

    /// The class of its result, where it has one.
    pub fn result(self) -> Option<Class>
        ensures { result ≡ runtime_result self }
    {
        match self {
            RuntimeFunction::Read
            | RuntimeFunction::Malloc
            | RuntimeFunction::Nargs
            | RuntimeFunction::Arg => Some(Class::L),
            RuntimeFunction::Same => Some(Class::W),
            RuntimeFunction::Puts
            | RuntimeFunction::Write
            | RuntimeFunction::Free
            | RuntimeFunction::Move
            | RuntimeFunction::Abort
            | RuntimeFunction::Exit => None,
        }
    }
}

/// Whether a symbol is the runtime's: one that begins with `rt.`, whether or not the runtime has a function of that name.
pub fn is_reserved(name: &[u8]) -> bool
    ensures { result ≡ is_reserved name.now }
{
    name.starts_with(b"rt.")
}
