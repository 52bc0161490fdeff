ghost use Rattle.std.specs.Prelude.{◌≡◌, ℕ, List, length};
ghost use Rattle.line.specs.Lines.{Line};
ghost use Rattle.line.specs.Stores.{store_limit, Kept, ReadGives, EditGives, Edit.replace as replaces, Edit.insert as inserts, Edit.remove as removes};

use super::fault::StoreFault;

// The most bytes of a line.
pub const LINE_LIMIT: usize = 120;

// The most lines of a store.
pub const STORE_LIMIT: usize = 4096;

// The most lines of a store, as the definitions have it: the constant and its definition are tied here, and nothing else has them.
pub fn store_limit() -> usize
    ensures { result ≡ store_limit }
{
    STORE_LIMIT
}

// A line is read to the front of such a buffer, with its length beside it; what stands behind is kept, which is a rule
// for every store, and a store may keep its lines in pieces.
pub type LineBuffer = [u8; LINE_LIMIT];

// A list of at most 4,096 lines, within a capacity that each line is charged to by its length.
pub trait LineStore {
    ghost lines: { Self → List Line };

    ghost capacity: { Self → ℕ };

    ghost charge: { Self → ℕ → ℕ };

    // The number of lines.
    fn count(&self) -> usize
        ensures { result ≡ length (lines self.now) };

    // Copies line `at` to the front of the buffer and answers its length.
    fn read(&self, at: usize, line: &mut LineBuffer) -> Result<usize, StoreFault>
        ensures { ReadGives (lines self.now) at line.old result line.new };

    // Puts a line in the place of line `at`.
    fn replace(&mut self, at: usize, line: &[u8]) -> Result<(), StoreFault>
        ensures { EditGives lines capacity charge (replaces at line.now) self.old result self.new };

    // Puts a line before line `at`, or behind all lines.
    fn insert(&mut self, at: usize, line: &[u8]) -> Result<(), StoreFault>
        ensures { EditGives lines capacity charge (inserts at line.now) self.old result self.new };

    // Takes line `at` out.
    fn remove(&mut self, at: usize) -> Result<(), StoreFault>
        ensures { EditGives lines capacity charge (removes at) self.old result self.new };

    ghost kept: { (s : Self) → Kept (lines s) (capacity s) (charge s) };
}
