// The store's calls.
ghost use Rattle.std.specs.Prelude.{vec_len};
ghost use Rattle.vec_store.specs.Records.{record_lines};
ghost use Rattle.vec_store.specs.RecordsLemmas.{kept_by};

use super::record::LineRecord;
use super::store::VecStore;
use line::{CheckedLine, LineBuffer, LineStore, StoreFault, check_place};

impl LineStore for VecStore {
    ghost lines = { λ s. record_lines s.records.items };

    ghost capacity = { λ s. s.room };

    ghost charge = { λ _ _. 1 };

    ghost kept = { λ s. kept_by s.records s.room s.few s.within };

    fn count(&self) -> usize {
        self.records.len()
    }

    fn read(&self, at: usize, line: &mut LineBuffer) -> Result<usize, StoreFault> {
        let count = self.records.len();
        check_place(at, count, count)?;
        let bytes = self.records[at].bytes();
        // Two lines of their own in each store are plainer than one call with the bytes and the buffer.
        line[0..bytes.len()].copy_from_slice(bytes);
        Ok(bytes.len())
    }

    fn replace(&mut self, at: usize, line: &[u8]) -> Result<(), StoreFault> {
        let count = self.records.len();
        check_place(at, count, count)?;
        self.records[at] = LineRecord::from(CheckedLine::try_from(line)?);
        Ok(())
    }

    fn insert(&mut self, at: usize, line: &[u8]) -> Result<(), StoreFault> {
        let count = self.records.len();
        check_place(at, count + 1, count)?;
        let line = CheckedLine::try_from(line)?;
        if count >= self.room {
            return Err(StoreFault::Full {
                charges: count,
                capacity: self.room,
            });
        }
        self.records.insert(at, LineRecord::from(line)).unwrap();
        Ok(())
    }

    fn remove(&mut self, at: usize) -> Result<(), StoreFault> {
        let count = self.records.len();
        check_place(at, count, count)?;
        self.records.remove(at);
        Ok(())
    }
}
