// The store's calls.
ghost use Rattle.std.specs.Prelude.{vec_len};
ghost use Rattle.gap_store.specs.Records.{taken};
ghost use Rattle.gap_store.specs.Gaps.{gap_lines};
ghost use Rattle.gap_store.specs.Stored.{sound_kept};

use super::store::GapStore;
use line::{CheckedLine, LineBuffer, LineStore, STORE_LIMIT, StoreFault, check_place};

impl LineStore for GapStore {
    ghost lines = { λ s. gap_lines s.gap s.memory.items };

    ghost capacity = { λ s. vec_len s.memory };

    ghost charge = { λ _. taken };

    ghost kept = { λ s. sound_kept s.memory s.gap s.sound s.few s.held };

    fn count(&self) -> usize {
        self.lines()
    }

    fn read(&self, at: usize, line: &mut LineBuffer) -> Result<usize, StoreFault> {
        check_place(at, self.lines(), self.lines())?;
        let bytes = self.line_at(at);
        // Two lines of their own in each store are plainer than one call with the bytes and the buffer.
        line[0..bytes.len()].copy_from_slice(bytes);
        Ok(bytes.len())
    }

    fn replace(&mut self, at: usize, line: &[u8]) -> Result<(), StoreFault> {
        check_place(at, self.lines(), self.lines())?;
        let line = CheckedLine::try_from(line)?;
        let old = self.line_at(at).len();
        if line.bytes().len() > old + self.room() {
            return Err(StoreFault::Full {
                charges: self.used(),
                capacity: self.memory.len(),
            });
        }
        self.remove_line(at);
        self.insert_line(at, line);
        Ok(())
    }

    fn insert(&mut self, at: usize, line: &[u8]) -> Result<(), StoreFault> {
        check_place(at, self.lines() + 1, self.lines())?;
        let line = CheckedLine::try_from(line)?;
        if self.lines() >= STORE_LIMIT || line.bytes().len() + 2 > self.room() {
            return Err(StoreFault::Full {
                charges: self.used(),
                capacity: self.memory.len(),
            });
        }
        self.insert_line(at, line);
        Ok(())
    }

    fn remove(&mut self, at: usize) -> Result<(), StoreFault> {
        check_place(at, self.lines(), self.lines())?;
        self.remove_line(at);
        Ok(())
    }
}
