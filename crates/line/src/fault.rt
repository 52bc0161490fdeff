// Why a line store refuses a call.
#[derive(Clone, Copy, PartialEq, Eq, Debug)]
pub enum StoreFault {
    // There is no line `line`: the store has `count` lines.
    NoLine { line: usize, count: usize },
    // A line has at most 120 bytes.
    TooLong { length: usize },
    // The first byte that a line may not hold.
    BadByte { column: usize },
    // The sum of the charges before the edit, and the capacity.
    Full { charges: usize, capacity: usize },
}
