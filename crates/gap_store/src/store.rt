ghost use Rattle.std.specs.Prelude.{◌≡◌, ◌+◌, ◌-◌, ◌<◌, ◌≤◌, min, [], take, drop, IfOk, length, vec_len, slice_index_or};
ghost use Rattle.line.specs.Stores.{store_limit};
ghost use Rattle.gap_store.specs.Gaps.{gap_limit, gap_lines, Held, Sound};

use super::gap::Gap;
use super::packed::PackedLines;
use std::alloc::{AllocError, Global};

// The most bytes of a store.
const GAP_LIMIT: usize = 524_288;

// Lines packed at the front and at the end of the memory, with a gap between them.
#[derive(Drop)]
pub struct GapStore {
    pub(crate) memory: Vec<u8>,
    pub(crate) gap: Gap,
    ghost small: { vec_len memory ≤ gap_limit },
    ghost few: { gap.before + gap.behind ≤ store_limit },
    ghost sound: { Sound gap memory.items },
    ghost held: { Held gap memory.items },
}

impl GapStore {
    // An empty store of so many bytes, at most 524,288. It fails only for want of memory.
    pub fn new(heap: Global, bytes: usize) -> Result<GapStore, AllocError>
        ensures { IfOk result (λ s. (gap_lines s.gap s.memory.items ≡ []) × (vec_len s.memory ≡ min bytes gap_limit)) }
    {
        let memory = vec![in heap; 0; bytes.min(GAP_LIMIT)]?;
        Ok(GapStore::over(memory))
    }

    // An empty store in the memory given, of at most 524,288 bytes of it.
    pub fn over(mut memory: Vec<u8>) -> GapStore
        ensures empty { gap_lines result.gap result.memory.items ≡ [] }
        ensures room { vec_len result.memory ≡ min (vec_len memory) gap_limit }
    {
        memory.truncate(GAP_LIMIT);
        let gap = Gap {
            before: 0,
            behind: 0,
            front: 0,
            back: memory.len(),
        };
        GapStore { memory, gap }
    }

    pub(crate) fn lines(&self) -> usize
        ensures { result ≡ self.now.gap.before + self.now.gap.behind }
    {
        self.gap.before + self.gap.behind
    }

    // The bytes of the gap.
    pub(crate) fn room(&self) -> usize
        ensures { result ≡ self.now.gap.back - self.now.gap.front }
    {
        self.gap.back - self.gap.front
    }

    // The bytes that the lines take.
    pub(crate) fn used(&self) -> usize
        ensures { result ≡ vec_len self.now.memory - (self.now.gap.back - self.now.gap.front) }
    {
        self.memory.len() - self.room()
    }

    // The lines before the gap.
    pub(crate) fn fore(&self) -> PackedLines<'_>
        ensures bytes { result.bytes.now ≡ take self.now.gap.front self.now.memory.items }
        ensures count { result.count ≡ self.now.gap.before }
    {
        PackedLines::new(&self.memory.as_slice()[..self.gap.front], self.gap.before)
    }

    // The lines behind the gap.
    pub(crate) fn aft(&self) -> PackedLines<'_>
        ensures bytes { result.bytes.now ≡ drop self.now.gap.back self.now.memory.items }
        ensures count { result.count ≡ self.now.gap.behind }
    {
        PackedLines::new(&self.memory.as_slice()[self.gap.back..], self.gap.behind)
    }

    // Line `at`, which stands before or behind the gap.
    pub(crate) fn line_at(&self, at: usize) -> &[u8]
        requires { at < length (gap_lines self.now.gap self.now.memory.items) }
        ensures { result.now ≡ slice_index_or (gap_lines self.now.gap self.now.memory.items) at [] }
    {
        if at < self.gap.before {
            self.fore().line(at)
        } else {
            self.aft().line(at - self.gap.before)
        }
    }
}
