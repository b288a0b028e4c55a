//! Stacks and spare lists of bytes.

use hare_ll_table::{Spare, Stack};
use std::test::Fail;

#[test]
fn the_last_item_of_a_stack_is_on_top(rt: HostRuntime) -> Result<(), Fail> {
    let mut stack = Stack::new(rt.alloc());
    stack.push(5u8)?;
    stack.push(7u8)?;
    assert_eq!(rt; stack.len(), 2);
    assert_eq!(rt; stack.top().copied(), Some(7));
    assert_eq!(rt; stack.pop(), Some(7));
    assert_eq!(rt; stack.pop(), Some(5));
    assert_eq!(rt; stack.pop(), None);
    Ok(())
}

// A list that was done with is empty when it is taken again, and has its memory.
#[test]
fn a_list_that_is_done_with_is_taken_again(rt: HostRuntime) -> Result<(), Fail> {
    let mut spare = Spare::new(rt.alloc());
    let mut list = spare.take();
    list.push(5u8)?;
    spare.keep(list)?;
    let again = spare.take();
    assert_eq!(rt; again.len(), 0);
    assert!(rt; again.capacity() > 0);
    Ok(())
}
