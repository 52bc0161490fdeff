ghost use Rattle.std.specs.Prelude.{◌≡◌, ℕ, ◌+◌, ◌-◌, ◌<◌, ◌≤◌, ◌⊎◌, List, length, None as NoFault, Decides, MatchOption};
ghost use Rattle.line.specs.Stores.{place_fault, store_limit};
ghost use Rattle.page_table.specs.declared.state.Phase.TheVariants.{Edited as is_edited, Settled as is_settled};
ghost use Rattle.page_table.specs.Indexes.{index_of};
ghost use Rattle.page_table.specs.Changes.{items_after, numbers_after, Begins};
ghost use Rattle.page_index.specs.Promise.{FillGives, EditGives, BeginGives, KeepGives, AbandonGives, edit_of};

use super::fault::PageSetFault;
use super::index::{FROM_START, PageIndex};
use line::{LineStore, STORE_LIMIT};
use page_rule::Marks;
use page_table::{MOST_PLACES, Numbers, Phase, Way};

// An edit of a line store, by its line.
#[derive(Clone, Copy)]
pub enum LineEdit {
    Replace(usize),
    Insert(usize),
    Remove(usize),
}

// The numbers after an edit, where the line is there and a store may have so many lines.
fn numbers_after(numbers: Numbers, edit: LineEdit) -> Option<Numbers>
    requires some { 0 < numbers.items_now }
    requires few { numbers.items_now ≤ store_limit + 1 }
    ensures { (line : List ℕ) → MatchOption result ((place_fault (numbers.items_now - 1) (edit_of edit line) ≡ NoFault) × (items_after numbers.items_now (edit_of edit line) ≤ store_limit + 1) → ⊥) (λ n. (n ≡ numbers_after numbers (edit_of edit line)) × (place_fault (numbers.items_now - 1) (edit_of edit line) ≡ NoFault) × (items_after numbers.items_now (edit_of edit line) ≤ store_limit + 1)) }
{
    let lines = numbers.items_now - 1;
    match edit {
        LineEdit::Replace(at) => (at < lines).then_some(Numbers {
            marks: numbers.marks.after_replace(lines, at),
            ..numbers
        }),
        LineEdit::Insert(at) => (at <= lines && lines < STORE_LIMIT).then_some(Numbers {
            items_now: numbers.items_now + 1,
            marks: numbers.marks.after_insert(lines, at),
            ..numbers
        }),
        LineEdit::Remove(at) => (at < lines).then_some(Numbers {
            items_now: lines,
            marks: numbers.marks.after_remove(lines, at),
            ..numbers
        }),
    }
}

impl PageIndex {
    // What is asked does not belong to the state of the index.
    pub(super) fn misfit(&self) -> PageSetFault
        ensures { result ≡ PageSetFault.Misfit (index_of self.now.table).places }
    {
        PageSetFault::Misfit {
            places: self.table.places,
        }
    }

    // Fills the index with places and no pages, for the lines of a store.
    pub fn fill<L: LineStore>(&mut self, places: usize, store: &L) -> Result<(), PageSetFault>
        ensures { FillGives (index_of self.old.table) places (length (L.lines store.now)) result (index_of self.new.table) }
    {
        if places % 2 != 0 || places < 2 || places > MOST_PLACES {
            return Err(PageSetFault::BadPlaces { places });
        }
        let lines = store.count();
        self.table.places = places;
        self.table.count = 0;
        self.table.numbers = Numbers {
            items_then: 0,
            items_now: lines + 1,
            marks: Marks { head: 0, tail: 0 },
        };
        self.table.phase = Phase::Edited;
        Ok(())
    }

    // Whether the session takes edits.
    fn takes_edits(&self) -> bool
        ensures { Decides result ((self.now.table.phase ≡ is_edited) ⊎ (self.now.table.phase ≡ is_settled)) }
    {
        matches!(self.table.phase, Phase::Edited | Phase::Settled)
    }

    // An edit was made: the numbers are those after it, and the session is edited.
    pub fn note_edit(&mut self, edit: LineEdit) -> Result<(), PageSetFault>
        ensures { (line : List ℕ) → EditGives (index_of self.old.table) (edit_of edit line) result (index_of self.new.table) }
    {
        if !self.takes_edits() {
            return Err(self.misfit());
        }
        let Some(numbers) = numbers_after(self.table.numbers, edit) else {
            return Err(self.misfit());
        };
        self.table.numbers = numbers;
        self.table.phase = Phase::Edited;
        Ok(())
    }

    // Where to begin again.
    fn restart_way(&self) -> Way
        ensures { Begins (index_of self.now.table) result }
    {
        let head = self.table.numbers.marks.head;
        if head == 0 {
            return FROM_START;
        }
        let Some(at) = self.page_holding(head - 1) else {
            return FROM_START;
        };
        Way {
            restart: at.number,
            start: at.page.first,
            made: 0,
            next: at.page.first,
            kept: Some(at.page.place),
        }
    }

    // An edited session is resumed, with nothing under way.
    pub fn begin(&mut self) -> Result<Way, PageSetFault>
        ensures { BeginGives (index_of self.old.table) result (index_of self.new.table) }
    {
        let Phase::Edited = self.table.phase else {
            return Err(self.misfit());
        };
        let way = self.restart_way();
        self.table.phase = Phase::Resumed(way);
        Ok(way)
    }

    // The state before the next item lies at a place.
    pub fn keep_state(&mut self, place: usize) -> Result<(), PageSetFault>
        ensures { KeepGives (index_of self.old.table) place result (index_of self.new.table) }
    {
        let Phase::Resumed(way) = self.table.phase else {
            return Err(self.misfit());
        };
        if place >= self.table.places {
            return Err(self.misfit());
        }
        self.table.phase = Phase::Resumed(Way {
            kept: Some(place),
            ..way
        });
        Ok(())
    }

    // Drops what is under way: the session is edited again, with the pages and the numbers that it had.
    pub fn abandon(&mut self) -> Result<(), PageSetFault>
        ensures { AbandonGives (index_of self.old.table) result (index_of self.new.table) }
    {
        let Phase::Resumed(_way) = self.table.phase else {
            return Err(self.misfit());
        };
        self.table.phase = Phase::Edited;
        Ok(())
    }
}
