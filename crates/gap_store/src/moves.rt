// Edits of lines around a gap. There is no `impl Model`: a refused edit promises the whole store as it was, its memory too, and a model that
// shows only the lines could not say so.
ghost use Rattle.std.specs.Prelude.{◌≡◌, ◌+◌, ◌<◌, ◌≤◌, length, vec_len};
ghost use Rattle.std.proofs.Math.Seq.{paste};
ghost use Rattle.std.specs.List.{insert, remove};
ghost use Rattle.line.specs.Stores.{store_limit};
ghost use Rattle.gap_store.specs.Records.{record_of, taken};
ghost use Rattle.gap_store.specs.Gaps.{gap_lines};

use super::gap::Gap;
use super::store::GapStore;
use line::CheckedLine;

// Writes a line between its two lengths.
fn write_record(memory: &mut [u8], start: usize, line: CheckedLine<'_>)
    requires { start + taken (length line.bytes.now) ≤ length memory.old }
    ensures { memory.new ≡ paste memory.old start (record_of line.entry.bytes.now) (taken (length line.entry.bytes.now)) }
{
    let bytes = line.bytes();
    let end = start + 1 + bytes.len();
    memory[start] = bytes.len() as u8;
    memory[start + 1..end].copy_from_slice(bytes);
    memory[end] = bytes.len() as u8;
}

impl GapStore {
    // Moves the gap down to line `at`.
    fn gap_down(&mut self, at: usize)
        requires { at ≤ self.old.gap.before }
        ensures lines { gap_lines self.new.gap self.new.memory.items ≡ gap_lines self.old.gap self.old.memory.items }
        ensures memory { vec_len self.new.memory ≡ vec_len self.old.memory }
        ensures there { self.new.gap.before ≡ at }
    {
        let gap = self.gap;
        let start = self.fore().start(at);
        let back = gap.back - (gap.front - start);
        self.memory
            .as_mut_slice()
            .copy_within(start..gap.front, back);
        self.gap = Gap {
            before: at,
            behind: gap.behind + (gap.before - at),
            front: start,
            back,
        };
    }

    // Moves the gap up to line `at`.
    fn gap_up(&mut self, at: usize)
        requires low { self.old.gap.before ≤ at }
        requires place { at ≤ self.old.gap.before + self.old.gap.behind }
        ensures lines { gap_lines self.new.gap self.new.memory.items ≡ gap_lines self.old.gap self.old.memory.items }
        ensures memory { vec_len self.new.memory ≡ vec_len self.old.memory }
        ensures there { self.new.gap.before ≡ at }
    {
        let gap = self.gap;
        let lines = at - gap.before;
        let size = self.aft().start(lines);
        self.memory
            .as_mut_slice()
            .copy_within(gap.back..gap.back + size, gap.front);
        self.gap = Gap {
            before: at,
            behind: gap.behind - lines,
            front: gap.front + size,
            back: gap.back + size,
        };
    }

    // Moves the gap to line `at`.
    pub(crate) fn move_gap(&mut self, at: usize)
        requires { at ≤ self.old.gap.before + self.old.gap.behind }
        ensures lines { gap_lines self.new.gap self.new.memory.items ≡ gap_lines self.old.gap self.old.memory.items }
        ensures memory { vec_len self.new.memory ≡ vec_len self.old.memory }
        ensures there { self.new.gap.before ≡ at }
    {
        if at < self.gap.before {
            self.gap_down(at);
        } else {
            self.gap_up(at);
        }
    }

    // Puts a line before line `at`, and the gap behind it.
    pub(crate) fn insert_line(&mut self, at: usize, line: CheckedLine<'_>)
        requires place { at ≤ self.old.gap.before + self.old.gap.behind }
        requires few { self.old.gap.before + self.old.gap.behind < store_limit }
        requires room { self.old.gap.front + taken (length line.bytes.now) ≤ self.old.gap.back }
        ensures lines { gap_lines self.new.gap self.new.memory.items ≡ insert (gap_lines self.old.gap self.old.memory.items) at line.entry.bytes.now }
        ensures memory { vec_len self.new.memory ≡ vec_len self.old.memory }
    {
        self.move_gap(at);
        let gap = self.gap;
        write_record(self.memory.as_mut_slice(), gap.front, line);
        self.gap = Gap {
            before: gap.before + 1,
            front: gap.front + line.bytes().len() + 2,
            ..gap
        };
    }

    // Takes line `at` out, and leaves the gap in its place.
    pub(crate) fn remove_line(&mut self, at: usize)
        requires { at < self.old.gap.before + self.old.gap.behind }
        ensures lines { gap_lines self.new.gap self.new.memory.items ≡ remove (gap_lines self.old.gap self.old.memory.items) at }
        ensures memory { vec_len self.new.memory ≡ vec_len self.old.memory }
    {
        self.move_gap(at);
        let gap = self.gap;
        let length = self.memory[gap.back] as usize;
        self.gap = Gap {
            behind: gap.behind - 1,
            back: gap.back + length + 2,
            ..gap
        };
    }
}
