ghost use Rattle.std.specs.Prelude.{◌≡◌, ◌+◌, ◌-◌, ◌<◌, ◌≤◌, length, take, drop, Decides};
ghost use Rattle.page_table.specs.declared.state.Phase.TheVariants.{Resumed as is_resumed};
ghost use Rattle.page_table.specs.Indexes.{index_of, way_of};
ghost use Rattle.page_table.specs.Free.{Free};
ghost use Rattle.std.proofs.Math.Seq.{paste};
ghost use Rattle.page_table.specs.Settled.{settled};
ghost use Rattle.page_index.specs.Tables.{Movable, taken_over};
ghost use Rattle.page_table.specs.Changes.{Admits};
ghost use Rattle.page_index.specs.Promise.{AddGives};

use super::fault::PageSetFault;
use super::index::PageIndex;
use super::places::has_place;
use page_rule::{Marks, PAGE_ROWS};
use page_table::{MOST_PAGES, Numbers, PageEntry, PageTable, Phase, Way};

// The first items of pages, moved as the end has moved.
fn move_firsts(pages: &mut [PageEntry], numbers: Numbers)
    requires { Movable numbers pages.old }
    ensures { pages.new ≡ taken_over numbers pages.old }
{
    for page in pages.iter_mut() {
        page.first = page.first + numbers.items_now - numbers.items_then;
    }
}

// The pages from `over` on, with their first items moved as the end has moved, behind the first `made` pages under way.
fn move_taken(
    under_way: &mut [PageEntry],
    made: usize,
    pages: &[PageEntry],
    over: usize,
    numbers: Numbers,
)
    requires over { over ≤ length pages.now }
    requires room { made + (length pages.now - over) ≤ length under_way.old }
    requires first { Movable numbers (drop over pages.now) }
    ensures { under_way.new ≡ paste under_way.old made (taken_over numbers (drop over pages.now)) (length pages.now - over) }
{
    let part = &mut under_way[made..made + (pages.len() - over)];
    part.copy_from_slice(&pages[over..]);
    move_firsts(part, numbers);
}

// Pages that were under way, from page number `restart` on.
fn put_made(pages: &mut [PageEntry], restart: usize, made: &[PageEntry])
    requires { restart + length made.now ≤ length pages.old }
    ensures { pages.new ≡ paste pages.old restart made.now (length made.now) }
{
    pages[restart..restart + made.len()].copy_from_slice(made);
}

// The first `made` pages under way, and the pages from `over` on, take the place of the pages from the restart page on.
// `restart`, `made` and `over` are numbers, since no slice of the table can be lent beside the table itself.
fn settle_table(table: &mut PageTable, restart: usize, made: usize, over: usize)
    requires restart { restart ≡ (way_of table.old.phase).restart }
    requires over { over ≤ table.old.count }
    requires count { table.old.count ≤ MOST_PAGES }
    requires front { restart ≤ table.old.count }
    requires room { restart + made + (table.old.count - over) ≤ MOST_PAGES }
    requires first { Movable table.old.numbers (drop over (index_of table.old).pages) }
    ensures index { index_of table.new ≡ settled (index_of table.old) (take made table.old.made) over }
    ensures stored { table.new.count ≤ length table.new.pages }
{
    let all = made + (table.count - over);
    move_taken(
        &mut table.made,
        made,
        &table.pages[..table.count],
        over,
        table.numbers,
    );
    put_made(&mut table.pages, restart, &table.made[..all]);
    let items_now = table.numbers.items_now;
    table.count = restart + all;
    table.numbers = Numbers {
        items_then: items_now,
        items_now,
        marks: Marks::untouched(items_now),
    };
    table.phase = Phase::Settled;
}

impl PageIndex {
    // Whether a place is free.
    fn is_free(&self, place: usize) -> bool
        ensures { Decides result (Free (index_of self.now.table) place) }
    {
        place < self.table.places
            && !has_place(self.pages(), place)
            && !has_place(self.made(), place)
    }

    // Whether a page may be made next.
    fn admits(&self, way: Way, page: PageEntry) -> bool
        requires { self.now.table.phase ≡ is_resumed way }
        ensures { Decides result (Admits (index_of self.now.table) way page.items page.rows page.place) }
    {
        way.restart + way.made < self.table.places / 2
            && 0 < page.items
            && page.rows <= PAGE_ROWS
            && self.is_free(page.place)
    }

    // One page more is under way, at a free place; it is not the last one.
    pub fn add_page(&mut self, items: usize, rows: usize, place: usize) -> Result<(), PageSetFault>
        ensures { AddGives (index_of self.old.table) items rows place result (index_of self.new.table) }
    {
        let Phase::Resumed(way) = self.table.phase else {
            return Err(self.misfit());
        };
        let page = PageEntry {
            first: way.next,
            items,
            rows,
            place,
        };
        if !self.admits(way, page) || items >= self.table.numbers.items_now - way.next {
            return Err(self.misfit());
        }
        self.table.made[way.made] = page;
        self.table.phase = Phase::Resumed(Way {
            made: way.made + 1,
            next: way.next + items,
            ..way
        });
        Ok(())
    }
}
