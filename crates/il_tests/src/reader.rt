use hx_base::{Bytes, Items, Text};
use il_code::{
    Block, Blocks, Class, IlItem, IlItems, IlOp, IlParams, IlValue, Inst, Insts, Jump, Module,
    Part, PartValue, PartValues, Parts, Phis, print, valid,
};
use il_read::*;
use std::alloc::{AllocError, Global};
use std::test::Fail;

/// What is to be there is not.
#[derive(Debug, Drop)]
struct Missing;

/// Two phis that are read at once.
const SWAP: &str = "export function w $main() {
@start
@loop
\t%a =w phi @start 1, @loop %b
\t%b =w phi @start 2, @loop %a
\t%i =w phi @start 0, @loop %j
\t%j =w add %i, 1
\t%c =w csltw %j, 2
\tjnz %c, @loop, @done
@done
\tret %b
}
";

/// Every kind of data, instruction and jump.
const ALL: &str = "export data $table = align 16 { b \"ab\" 255, h 1 2, w 3, l $f + 8 $g, z 16 }
data $none = align 1 { }
function l $f(l %p, w %q) {
@start
\t%a =l alloc8 16
\tstoreb %q, %a
\tstoreh 1, %a
\tstorew %q, %a
\tstorel $table, %a
\tblit %a, $table, 16
\t%r =w call $g(l %a, w 7)
\tcall $rt.exit(w 0)
\tjnz %r, @loop, @end
@loop
\t%i =w phi @start 0, @loop %j
\t%j =w loadsw %a
\t%k =l sub 18446744073709551615, %a
@end
\tret %a
}
function w $g(l %p, w %q) {
@start
\tjmp @stop
@stop
\thlt
}
export function $h() {
@start
\tret
}
";

/// A block of an item that is a function.
fn block_at(m: &Module, item: usize, i: usize) -> Option<&Block> {
    match m.items.get(item) {
        Some(IlItem::Function { blocks, .. }) => blocks.get(i),
        _ => None,
    }
}

/// The module of a printed text.
fn module_of(alloc: Global, text: &[u8]) -> Result<Module, Fail> {
    let read = read_printed(alloc, text)?;
    Ok(read.ok_or(Missing)?)
}

/// Whether a text is that of a module.
fn is_read(alloc: Global, text: &[u8]) -> Result<bool, AllocError> {
    let read = read_printed(alloc, text)?;
    Ok(read.is_some())
}

#[test]
fn reads_the_swap(rt: HostRuntime) -> Result<(), Fail> {
    let module = module_of(rt.alloc(), SWAP.as_bytes())?;
    assert!(rt; valid(&module));
    assert_eq!(rt; module.items.len(), 1);
    let turn = block_at(&module, 0, 1).ok_or(Missing)?;
    assert_eq!(rt; turn.label.bytes(), b"loop".as_slice());
    assert_eq!(rt; turn.phis.len(), 3);
    assert_eq!(rt; turn.insts.len(), 2);
    match &turn.jump {
        Jump::Jnz(_, then, other) => {
            assert_eq!(rt; then.bytes(), b"loop".as_slice());
            assert_eq!(rt; other.bytes(), b"done".as_slice());
        }
        _ => assert!(rt; false),
    }
    Ok(())
}

/// What a text is when it is read and printed again.
fn again(alloc: Global, text: &[u8]) -> Result<Bytes, Fail> {
    let module = module_of(alloc, text)?;
    Ok(print(alloc, &module)?)
}

#[test]
fn reads_every_construct(rt: HostRuntime) -> Result<(), Fail> {
    let module = module_of(rt.alloc(), ALL.as_bytes())?;
    assert_eq!(rt; module.items.len(), 5);
    let again = again(rt.alloc(), ALL.as_bytes())?;
    assert_eq!(rt; again.bytes(), ALL.as_bytes());
    Ok(())
}

/// What is cut off is no text of a module, except where nothing is left.
#[test]
fn reads_no_cut_text(rt: HostRuntime) -> Result<(), Fail> {
    let text = SWAP.as_bytes();
    assert!(rt; is_read(rt.alloc(), b"")?);
    for len in 1..text.len() {
        let (front, _) = text.split_at(len);
        assert!(rt; !is_read(rt.alloc(), front)?, "at {len}");
    }
    Ok(())
}

/// The language has these, and `print` writes them otherwise.
#[test]
fn reads_nothing_that_is_not_printed(rt: HostRuntime) -> Result<(), Fail> {
    let texts = [
        "# a comment\ndata $a = align 1 { }\n",
        "data $a = { }\n",
        "data $a = align 8 {}\n",
        "data $a = align 08 { }\n",
        "data $a = align 1 { b -1 }\n",
        "data $a = align 1 { b 1, }\n",
        "data $a = align 1 { l $b + 0 }\n",
        "data $a = align 1 { w 18446744073709551616 }\n",
        "data $a = align 4294967296 { }\n",
        "export export data $a = align 1 { }\n",
        "data $a = align 1 { }\n\n",
        "function $f() {\n@s\n\t%a =w loadw %p\n\tret\n}\n",
        "function $f() {\n@s\n ret\n}\n",
        "function $f() {\n@s\n\tret\n\t%a =w copy 1\n}\n",
        "function $f() {\n@s\n\t%a =w copy 1\n\t%b =w phi @s 1\n\tret\n}\n",
    ];
    for text in texts {
        assert!(rt; !is_read(rt.alloc(), text.as_bytes())?, "{text}");
    }
    Ok(())
}

/// A string and a number.
fn values(alloc: Global) -> Result<PartValues, AllocError> {
    let mut string = Bytes::new(alloc);
    string.extend(b"ab")?;
    let mut values = PartValues::new(alloc);
    values.push(PartValue::Str(string))?;
    values.push(PartValue::Number(255))?;
    Ok(values)
}

/// An exported item with a string and a number.
fn data(alloc: Global) -> Result<IlItem, AllocError> {
    let name = Text::copy(alloc, "d")?;
    let values = values(alloc)?;
    let mut parts = Parts::new(alloc);
    parts.push(Part::Values { width: 1, values })?;
    Ok(IlItem::Data {
        export: true,
        name,
        align: 8,
        parts,
    })
}

fn set_greatest(alloc: Global) -> Result<Inst, AllocError> {
    let temp = Text::copy(alloc, "t")?;
    Ok(Inst::Set {
        temp,
        class: Class::L,
        op: IlOp::Copy,
        a: IlValue::Number(u64::MAX),
        b: None,
    })
}

fn store_temp(alloc: Global) -> Result<Inst, AllocError> {
    let value = Text::copy(alloc, "t")?;
    let at = Text::copy(alloc, "d")?;
    Ok(Inst::Store {
        width: 8,
        value: IlValue::Temp(value),
        at: IlValue::Symbol(at),
    })
}

fn insts(alloc: Global) -> Result<Insts, AllocError> {
    let mut insts = Insts::new(alloc);
    insts.push(set_greatest(alloc)?)?;
    insts.push(store_temp(alloc)?)?;
    Ok(insts)
}

fn blocks(alloc: Global) -> Result<Blocks, AllocError> {
    let label = Text::copy(alloc, "s")?;
    let insts = insts(alloc)?;
    let mut blocks = Blocks::new(alloc);
    blocks.push(Block {
        label,
        phis: Phis::new(alloc),
        insts,
        jump: Jump::Ret(None),
    })?;
    Ok(blocks)
}

/// A function that stores the greatest number of 64 bits.
fn store(alloc: Global) -> Result<IlItem, AllocError> {
    let name = Text::copy(alloc, "f")?;
    let blocks = blocks(alloc)?;
    Ok(IlItem::Function {
        export: false,
        class: None,
        name,
        params: IlParams::new(alloc),
        blocks,
    })
}

fn built(alloc: Global) -> Result<Module, AllocError> {
    let mut items: IlItems = Items::new(alloc);
    items.push(data(alloc)?)?;
    items.push(store(alloc)?)?;
    Ok(Module { items })
}

fn text_of_built(alloc: Global) -> Result<Bytes, AllocError> {
    let m = built(alloc)?;
    print(alloc, &m)
}

/// What was built, when it is printed and read.
fn read_again(alloc: Global) -> Result<Module, Fail> {
    let text = text_of_built(alloc)?;
    module_of(alloc, text.bytes())
}

#[test]
fn reads_what_was_built(rt: HostRuntime) -> Result<(), Fail> {
    let read = read_again(rt.alloc())?;
    let block = block_at(&read, 1, 0).ok_or(Missing)?;
    match block.insts.get(0) {
        Some(
            Inst::Set {
                a: IlValue::Number(n),
                ..
            },
        ) => assert_eq!(rt; *n, u64::MAX),
        _ => assert!(rt; false),
    }
    match block.insts.get(1) {
        Some(
            Inst::Store {
                at: IlValue::Symbol(s),
                ..
            },
        ) => assert_eq!(rt; s.bytes(), b"d".as_slice()),
        _ => assert!(rt; false),
    }
    Ok(())
}
