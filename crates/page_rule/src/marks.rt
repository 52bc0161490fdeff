ghost use Rattle.std.specs.Prelude.{◌≡◌, ℕ, min, List};
ghost use Rattle.line.specs.Stores.{Edit.replace as replaces, Edit.insert as inserts, Edit.remove as removes};
ghost use Rattle.page_rule.specs.Marks.{all_untouched, marks_after, MarksLaw};

// How many items in front and at the end of a text no edit has touched.
#[derive(Clone, Copy, PartialEq, Eq, Debug)]
pub struct Marks {
    pub head: usize,
    pub tail: usize,
}

impl Marks {
    // Before any edit, in a text of so many items.
    #[tactic(auto, using(crate::proofs::Marking::marks_law))]
    pub fn untouched(items: usize) -> Marks
        ensures marks { result ≡ all_untouched items }
        ensures law { MarksLaw }
    {
        Marks {
            head: items,
            tail: items,
        }
    }

    // With no more than so many items in front and at the end.
    fn lowered(self, front: usize, end: usize) -> Marks
        ensures { result ≡ record { head = min self.head front; tail = min self.tail end } }
    {
        Marks {
            head: self.head.min(front),
            tail: self.tail.min(end),
        }
    }

    // After line `at` was taken out, in a text of so many lines.
    pub fn after_remove(self, lines: usize, at: usize) -> Marks
        ensures { result ≡ marks_after lines self (removes at) }
    {
        self.lowered(at, lines.saturating_sub(at))
    }

    // After line `at` was replaced: what a line taken out would have touched.
    pub fn after_replace(self, lines: usize, at: usize) -> Marks
        ensures { (line : List ℕ) → result ≡ marks_after lines self (replaces at line) }
    {
        self.after_remove(lines, at)
    }

    // After a line was put before line `at`, or behind all lines.
    pub fn after_insert(self, lines: usize, at: usize) -> Marks
        ensures { (line : List ℕ) → result ≡ marks_after lines self (inserts at line) }
    {
        let end = lines
            .checked_sub(at)
            .map_or(0, |behind| behind.saturating_add(1));
        self.lowered(at, end)
    }
}
