//! The start.

ghost use Rattle.std.specs.Prelude.{◌≡◌, ◌<◌, ◌≤◌, ℕ, [], List, IfOk, OnOk};
ghost use Rattle.std.specs.List.{All};
ghost use Rattle.hx_base.specs.Memory.{Memory};
ghost use Rattle.il_code.specs.Addresses.{start_memory};
ghost use Rattle.il_code.specs.Rules.{IsValid};
ghost use Rattle.il_decode.specs.Symbols.{AreSymbols};
ghost use Rattle.il_load.specs.Arguments.{AreFew};
ghost use Rattle.il_load.specs.Puts.{IsSome, Stands};
ghost use Rattle.il_load.specs.Start.{HoldsData, LiesBelow};

use crate::arguments::put_arguments;
use crate::data::put_item;
use hx_base::Text;
use il_code::Module;
use il_decode::{Symbol, Table, find_symbols};
use il_mem::Mem;
use std::alloc::{AllocError, Global};

/// The memory with which a run of a valid module begins, with these arguments and this fill byte: its data, the table of its arguments, and
/// nothing else mapped. It fails for want of memory alone.
pub fn load(alloc: Global, m: &Module, arguments: &[Text], fill: u8) -> Result<Mem, AllocError>
    requires valid { IsValid m.now }
    requires few { AreFew arguments.now }
    ensures fill { IfOk result (λ it. it.held.fill ≡ fill) }
    ensures stands { IfOk result (λ it. Stands it (start_memory fill m.now arguments.now)) }
    ensures below { IfOk result (λ it. All LiesBelow it.ranges) }
{
    let symbols = find_symbols(alloc, m)?;
    let mut memory = Mem::new(alloc, fill);
    put_items(&mut memory, &symbols, m)?;
    put_arguments(&mut memory, arguments)?;
    Ok(memory)
}

// Puts the data of a module into memory in which nothing is mapped.
fn put_items(memory: &mut Mem, symbols: &Table<Symbol>, m: &Module) -> Result<(), AllocError>
    requires valid { IsValid m.now }
    requires symbols { AreSymbols m.now.items symbols.now }
    requires none { memory.old.ranges ≡ [] }
    requires some { IsSome memory.old }
    ensures { OnOk result (HoldsData m.now memory.old memory.new) }
{
    for item in m.items.as_slice() {
        put_item(memory, symbols, item)?;
    }
    Ok(())
}
