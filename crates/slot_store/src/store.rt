ghost use Rattle.std.specs.Prelude.{◌≡◌, ◌≤◌, min, [], IfOk, vec_len};
ghost use Rattle.line.specs.Stores.{store_limit};
ghost use Rattle.slot_store.specs.Slots.{slots_in, slots_of, Held};

use line::STORE_LIMIT;
use std::alloc::{AllocError, Global};

// The bytes of a slot.
pub(crate) const SLOT_SIZE: usize = 128;

// Line `i` stands in slot `i`: its length in the first byte, its bytes behind it. The memory may be given, so it is bytes with a count
// and no vector of lines.
#[derive(Drop)]
pub struct SlotStore {
    pub(crate) memory: Vec<u8>,
    pub(crate) count: usize,
    ghost within: { count ≤ slots_in (vec_len memory) },
    ghost held: { Held count memory.items },
}

impl SlotStore {
    // An empty store of so many slots, at most 4,096. It fails only for want of memory.
    pub fn new(heap: Global, slots: usize) -> Result<SlotStore, AllocError>
        ensures { IfOk result (λ s. (slots_of s.count s.memory.items ≡ []) × (slots_in (vec_len s.memory) ≡ min slots store_limit)) }
    {
        let memory = vec![in heap; 0; SLOT_SIZE * slots.min(STORE_LIMIT)]?;
        Ok(SlotStore::over(memory))
    }

    // An empty store in the memory given: its whole slots, at most 4,096.
    pub fn over(memory: Vec<u8>) -> SlotStore
        ensures empty { slots_of result.count result.memory.items ≡ [] }
        ensures room { slots_in (vec_len result.memory) ≡ slots_in (vec_len memory) }
    {
        SlotStore { memory, count: 0 }
    }

    // The slots that the memory serves for.
    pub(crate) fn slots(&self) -> usize
        ensures { result ≡ slots_in (vec_len self.now.memory) }
    {
        (self.memory.len() / SLOT_SIZE).min(STORE_LIMIT)
    }
}
