//! The slots of the cache in the order of their last use.
ghost use Rattle.std.specs.Prelude.{◌≡◌, ◌<◌, false, option_map, length, IfOk, MatchOption};
ghost use Rattle.std.specs.List.{find, AllByRecursion};
ghost use Rattle.lru.specs.LruCache.{lru_cache};
ghost use Rattle.cdb_sessions.specs.Slots.{NumberedSlot, fresh, holds, IsMoved, IsRenewed};

use crate::slot::{Pair, Slot};
use lru::LruCache;
use std::alloc::{AllocError, Global};
use std::num::NonZeroUsize;

/// The slots by their numbers.
pub type Slots = LruCache<u8, Slot>;

/// Seven slots, each with a frame of its own and no file. All memory is taken here.
pub fn new_slots(alloc: Global) -> Result<Slots, AllocError>
    ensures { IfOk result (λ slots. slots ≡ lru_cache (fresh 7) 7) }
{
    let Some(seven) = NonZeroUsize::new(7) else {
        unreachable!();
    };
    let mut slots = LruCache::new(alloc, seven)?;
    for number in 0..7u8 {
        slots.put(
            number,
            Slot {
                frame: number,
                pair: None,
            },
        )?;
    }
    Ok(slots)
}

/// Whether the slot has this file.
pub fn has_pair(slot: &Slot, pair: &Pair) -> bool
    ensures { result ≡ holds pair.now slot.now }
{
    match &slot.pair {
        Some(kept) => kept == pair,
        None => false,
    }
}

/// The number and the frame of the first slot that has this file.
fn slot_with(slots: &Slots, pair: &Pair) -> Option<(u8, u8)>
    ensures { result ≡ option_map (λ (e : NumberedSlot). (e.0, e.1.frame))
        (find (λ (e : NumberedSlot). holds pair.now e.1) slots.now.entries) }
{
    for (number, slot) in slots.iter() {
        if has_pair(slot, pair) {
            return Some((*number, slot.frame));
        }
    }
    None
}

/// Brings the slot that has this file to the front, and gives its frame.
pub fn use_slot(slots: &mut Slots, pair: &Pair) -> Option<u8>
    ensures cap { slots.new.cap ≡ slots.old.cap }
    ensures moved { MatchOption result (slots.new ≡ slots.old)
        (λ frame. IsMoved pair.now frame slots.old.entries slots.new.entries) }
    ensures absent { MatchOption result
        (AllByRecursion (λ (e : NumberedSlot). holds pair.now e.1 ≡ false) slots.old.entries)
        (λ _. Unit {0}) }
{
    let _count = slots.len();
    let Some((number, frame)) = slot_with(slots, pair) else {
        return None;
    };
    slots.promote(&number);
    Some(frame)
}

/// Gives the last slot this frame and file, and brings it to the front. No memory is taken, since its
/// number is there. The frame that it had comes back.
pub fn renew_last(slots: &mut Slots, frame: u8, pair: Pair) -> u8
    requires { 0 < length slots.old.entries }
    ensures { IsRenewed frame pair slots.old slots.new result }
{
    let _count = slots.len();
    let Some((number, _)) = slots.peek_lru() else {
        unreachable!();
    };
    let number = *number;
    let slot = Slot {
        frame,
        pair: Some(pair),
    };
    let old = slots.put(number, slot).unwrap();
    old.unwrap().frame
}
