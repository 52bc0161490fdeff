ghost use Rattle.std.specs.Prelude.{◌≡◌, ◌≤◌, min, [], IfOk, vec_len, vec_capacity};
ghost use Rattle.line.specs.Stores.{store_limit};
ghost use Rattle.vec_store.specs.Records.{record_lines};

use super::record::LineRecord;
use line::STORE_LIMIT;
use std::alloc::{AllocError, Global};

// Room for all lines is reserved when the store is made, so no edit allocates.
#[derive(Drop)]
pub struct VecStore {
    pub(crate) records: Vec<LineRecord>,
    pub(crate) room: usize,
    ghost few: { room ≤ store_limit },
    ghost within: { vec_len records ≤ room },
    ghost reserved: { room ≤ vec_capacity records },
}

impl VecStore {
    // An empty store for so many lines, at most 4,096. It fails only for want of memory.
    pub fn new(heap: Global, lines: usize) -> Result<VecStore, AllocError>
        ensures { IfOk result (λ s. (record_lines s.records.items ≡ []) × (s.room ≡ min lines store_limit)) }
    {
        let room = lines.min(STORE_LIMIT);
        let records = Vec::with_capacity(heap, room)?;
        Ok(VecStore { records, room })
    }
}
