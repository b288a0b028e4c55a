//! How much a module has.

use il_code::{Block, IlItem, Module};

/// How many blocks a module has, and how many instructions these have together. Each stops at its greatest number.
#[derive(Clone, Copy)]
pub struct Size {
    pub blocks: u64,
    pub insts: u64,
}

impl Size {
    fn add(&mut self, block: &Block) {
        self.blocks = self.blocks.saturating_add(1);
        self.insts = self.insts.saturating_add(block.insts.len() as u64);
    }
}

/// How much a module has.
pub fn size_of(m: &Module) -> Size {
    let mut size = Size {
        blocks: 0,
        insts: 0,
    };
    for item in m.items.as_slice() {
        if let IlItem::Function { blocks, .. } = item {
            for block in blocks.as_slice() {
                size.add(block);
            }
        }
    }
    size
}
