//! Each call with ample memory: that it answers, and what a person expects of it.

use il_mem::Mem;
use std::test::Fail;

#[test]
fn a_number_over_two_pages(rt: HostRuntime) -> Result<(), Fail> {
    let mut memory = Mem::new(rt.alloc(), 0xa5);
    memory.map(0x2_0000_0ffc, 16)?;
    assert!(rt;
        memory
            .store(0x2_0000_0ffc, 8, 0x0102_0304_0506_0708)
            .is_ok()
    );
    assert_eq!(rt; memory.load(0x2_0000_0fff, 2), Ok(0x0405));
    assert_eq!(rt; memory.pages(), 2);
    Ok(())
}
