// The store's calls.
ghost use Rattle.std.specs.Prelude.{vec_len};
ghost use Rattle.slot_store.specs.Slots.{slots_in, slots_of};
ghost use Rattle.slot_store.specs.Stored.{kept_by};

use super::bytes::{insert_line, line_in, move_slots, write_line};
use super::store::SlotStore;
use line::{CheckedLine, LineBuffer, LineStore, StoreFault, check_place};

impl LineStore for SlotStore {
    ghost lines = { λ s. slots_of s.count s.memory.items };

    ghost capacity = { λ s. slots_in (vec_len s.memory) };

    ghost charge = { λ _ _. 1 };

    ghost kept = { λ s. kept_by s.memory s.count s.within s.held };

    #[tactic(auto, using(crate::specs::SlotsLemmas::length_slots))]
    fn count(&self) -> usize {
        self.count
    }

    #[tactic(auto, using(crate::specs::SlotsLemmas::length_slots))]
    fn read(&self, at: usize, line: &mut LineBuffer) -> Result<usize, StoreFault> {
        check_place(at, self.count, self.count)?;
        let bytes = line_in(self.memory.as_slice(), at);
        // Two lines of their own in each store are plainer than one call with the bytes and the buffer.
        line[0..bytes.len()].copy_from_slice(bytes);
        Ok(bytes.len())
    }

    #[tactic(auto, using(crate::specs::SlotsLemmas::length_slots))]
    fn replace(&mut self, at: usize, line: &[u8]) -> Result<(), StoreFault> {
        check_place(at, self.count, self.count)?;
        let line = CheckedLine::try_from(line)?;
        write_line(self.memory.as_mut_slice(), at, line);
        Ok(())
    }

    #[tactic(auto, using(crate::specs::SlotsLemmas::length_slots))]
    fn insert(&mut self, at: usize, line: &[u8]) -> Result<(), StoreFault> {
        check_place(at, self.count + 1, self.count)?;
        let line = CheckedLine::try_from(line)?;
        if self.count >= self.slots() {
            return Err(StoreFault::Full {
                charges: self.count,
                capacity: self.slots(),
            });
        }
        insert_line(self.memory.as_mut_slice(), self.count, at, line);
        self.count += 1;
        Ok(())
    }

    #[tactic(auto, using(crate::specs::SlotsLemmas::length_slots))]
    fn remove(&mut self, at: usize) -> Result<(), StoreFault> {
        check_place(at, self.count, self.count)?;
        move_slots(self.memory.as_mut_slice(), at + 1, self.count, at);
        self.count -= 1;
        Ok(())
    }
}
