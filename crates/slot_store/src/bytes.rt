// Slots as bytes. Each function asks for another part of the memory, so there is no one fact that a type could keep for them.
ghost use Rattle.std.specs.Prelude.{◌≡◌, ◌+◌, ◌-◌, ◌*◌, ◌≤◌, true, length};
ghost use Rattle.line.specs.Lines.{is_line};
ghost use Rattle.slot_store.specs.Slots.{slot_size, slot_at, slot_line, with_line, with_slots};

use super::store::SLOT_SIZE;
use line::CheckedLine;

// The line in slot `at`.
pub(crate) fn line_in(memory: &[u8], at: usize) -> &[u8]
    requires whole { slot_size * at + slot_size ≤ length memory.now }
    requires held { is_line (slot_line (slot_at memory.now at)) ≡ true }
    ensures { result.now ≡ slot_line (slot_at memory.now at) }
{
    let start = SLOT_SIZE * at + 1;
    let length = memory[start - 1] as usize;
    &memory[start..start + length]
}

// Writes a line into slot `at`.
pub(crate) fn write_line(memory: &mut [u8], at: usize, line: CheckedLine<'_>)
    requires { slot_size * at + slot_size ≤ length memory.old }
    ensures { memory.new ≡ with_line memory.old at line.entry.bytes.now }
{
    let start = SLOT_SIZE * at;
    let bytes = line.bytes();
    memory[start] = bytes.len() as u8;
    memory[start + 1..start + 1 + bytes.len()].copy_from_slice(bytes);
}

// Moves the slots from `at` to `count` up by one, and writes a line into slot `at`.
pub(crate) fn insert_line(memory: &mut [u8], count: usize, at: usize, line: CheckedLine<'_>)
    requires place { at ≤ count }
    requires room { slot_size * (count + 1) ≤ length memory.old }
    ensures { memory.new ≡ with_line (with_slots memory.old at count (at + 1)) at line.entry.bytes.now }
{
    move_slots(memory, at, count, at + 1);
    write_line(memory, at, line);
}

// Copies the slots from `from` to `end` to those from `to` on.
pub(crate) fn move_slots(memory: &mut [u8], from: usize, end: usize, to: usize)
    requires forward { from ≤ end }
    requires whole { slot_size * end ≤ length memory.old }
    requires room { slot_size * (to + (end - from)) ≤ length memory.old }
    ensures { memory.new ≡ with_slots memory.old from end to }
{
    memory.copy_within(SLOT_SIZE * from..SLOT_SIZE * end, SLOT_SIZE * to);
}
