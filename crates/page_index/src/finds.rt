ghost use Rattle.std.specs.Prelude.{◌≡◌, true, length, is_some};
ghost use Rattle.std.specs.Fn.{FnReturnsAt};
ghost use Rattle.page_table.specs.Indexes.{index_of};
ghost use Rattle.page_table.specs.Free.{NeedsPlace};
ghost use Rattle.page_index.specs.Promise.{PageGives, HolderGives, BeginnerGives, FreeGives, FoundGives};

use super::fault::PageSetFault;
use super::index::PageIndex;
use super::places::{first_unused, mark_places};
use page_table::{MOST_PLACES, Numbers, PageEntry, Phase};

// What an index keeps beside its pages, and how many pages stand.
#[derive(Clone, Copy)]
pub struct IndexState {
    pub places: usize,
    pub pages: usize,
    pub numbers: Numbers,
    pub phase: Phase,
}

// A page with its number.
#[derive(Clone, Copy)]
pub struct PageAt {
    pub number: usize,
    pub page: PageEntry,
}

// A page that meets a condition.
fn find_page<F: Fn(&PageEntry) -> bool>(pages: &[PageEntry], meets: F) -> Option<PageAt>
    requires { F.IsAlwaysCallable meets }
    ensures { FoundGives pages.now (FnReturnsAt F.Fn meets) result }
{
    let number = pages.iter().position(|page| meets(page))?;
    Some(PageAt {
        number,
        page: pages[number],
    })
}

impl PageIndex {
    pub fn state(&self) -> IndexState
        ensures { result ≡ record { places = (index_of self.now.table).places; pages = length (index_of self.now.table).pages; numbers = (index_of self.now.table).numbers; phase = (index_of self.now.table).phase } }
    {
        IndexState {
            places: self.table.places,
            pages: self.table.count,
            numbers: self.table.numbers,
            phase: self.table.phase,
        }
    }

    // Page number `number`.
    pub fn page(&self, number: usize) -> Result<PageEntry, PageSetFault>
        ensures { PageGives (index_of self.now.table) number result }
    {
        let page = self.pages().get(number).copied();
        page.ok_or(PageSetFault::NotThere { asked: number })
    }

    // The page that holds an item.
    pub fn page_holding(&self, item: usize) -> Option<PageAt>
        ensures { HolderGives (index_of self.now.table) item result }
    {
        find_page(
            self.pages(),
            |page| page.first <= item && item - page.first < page.items,
        )
    }

    // The page that begins at an item.
    pub fn page_from(&self, item: usize) -> Option<PageAt>
        ensures { BeginnerGives (index_of self.now.table) item result }
    {
        find_page(self.pages(), |page| page.first == item)
    }

    // The lowest free place; there is one wherever one more page may be made.
    pub fn free_place(&self) -> Option<usize>
        ensures place { FreeGives (index_of self.now.table) result }
        ensures room { NeedsPlace (index_of self.now.table) → is_some result ≡ true }
    {
        let mut used = [false; MOST_PLACES];
        mark_places(self.pages(), &mut used);
        mark_places(self.made(), &mut used);
        first_unused(&used[..self.table.places])
    }
}
