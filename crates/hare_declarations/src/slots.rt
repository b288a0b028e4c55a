//! The slots in which what has been judged of each declaration is kept.

ghost use Rattle.std.specs.Prelude.{◌≡◌, slice_get, slice_set, Some, IfSome};
ghost use Rattle.hare_declarations.specs.Standing.{TakesSlot};

use crate::parts::Parts;

/// What has been judged of a declaration.
pub(crate) fn parts_at(slots: &[Option<Parts>], own: u32) -> Option<&Parts>
    ensures { IfSome result (λ q. slice_get slots.now own ≡ Some (Some q.now)) }
{
    match slots.get(own as usize) {
        Some(Some(parts)) => Some(parts),
        _ => None,
    }
}

/// Takes what has been judged of a declaration out of its slot.
pub(crate) fn take_slot(slots: &mut Vec<Option<Parts>>, own: u32) -> Option<Parts>
    ensures { IfSome result (TakesSlot slots.old.items slots.new.items own) }
{
    let slot = slots.get_mut(own as usize)?;
    slot.take()
}

/// Puts what has been judged of a declaration into its slot; nothing changes where there is none.
pub(crate) fn put_slot(slots: &mut Vec<Option<Parts>>, own: u32, parts: Parts)
    ensures { slots.new.items ≡ slice_set slots.old.items own (Some parts) }
{
    let place = own as usize;
    if place < slots.len() {
        slots[place] = Some(parts);
    }
}
