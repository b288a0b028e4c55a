//! Programs of flat code: functions and globals.

use crate::flat::Flat;
use hx_base::{Bytes, Class, Items, Text};

/// A whole program. It begins with a call of the function named `main`, without arguments.
#[derive(Drop)]
pub struct FlatProgram {
    pub functions: FlatFns,
    pub globals: DataList,
}

/// The functions of a program.
pub type FlatFns = Items<FlatFn>;

/// A function. Its temporaries are the numbers below `temps`, and the first of them hold its arguments as a call begins.
#[derive(Drop)]
pub struct FlatFn {
    /// The symbol by which it is called.
    pub name: Text,
    /// The classes of the parameters.
    pub params: Classes,
    /// The class of the result, where there is one.
    pub result: Option<Class>,
    pub temps: u32,
    /// The bytes that a call has in memory of its own, at a multiple of 16.
    pub frame: u64,
    pub body: Flat,
}

/// A list of classes.
pub type Classes = Items<Class>;

/// The globals of a program. They stand in memory in this order.
pub type DataList = Items<Data>;

/// A global: bytes in memory, those of its items behind one another. `align` is in bytes: 1, 2, 4, 8 or 16.
#[derive(Drop)]
pub struct Data {
    pub name: Text,
    pub align: u32,
    pub items: Items<Item>,
}

/// A part of a global.
#[derive(Drop)]
pub enum Item {
    /// A number in so many bytes, 1, 2, 4 or 8, the lowest first.
    Number(u32, u64),
    Bytes(Bytes),
    /// The address so many bytes behind the start of the global with this name, in 8 bytes.
    Symbol(Text, u64),
    /// So many bytes that are 0.
    Zero(u64),
}
