ghost use Rattle.std.specs.Prelude.{◌≡◌, ℕ, ◌<◌, true, false, ◌||◌, ◌==◌, Some, MatchOption, length, slice_index_or};
ghost use Rattle.std.specs.List.{list_any};
ghost use Rattle.page_table.specs.Sound.{most_places, Within};

use page_table::{MOST_PLACES, PageEntry};

// Whether one of the pages has the place.
pub(super) fn has_place(entries: &[PageEntry], place: usize) -> bool
    ensures { result ≡ list_any (λ p. p.place == place) entries.now }
{
    entries.iter().any(|page| page.place == place)
}

// Marks the places of the pages as used.
pub(super) fn mark_places(entries: &[PageEntry], used: &mut [bool; MOST_PLACES])
    requires { Within most_places entries.now }
    ensures { (x : ℕ) → x < most_places → slice_index_or used.new x false ≡ (slice_index_or used.old x false || list_any (λ p. p.place == x) entries.now) }
{
    for page in entries {
        used[page.place] = true;
    }
}

// The first place that is not used.
pub(super) fn first_unused(used: &[bool]) -> Option<usize>
    ensures { MatchOption result ((x : ℕ) → x < length used.now → slice_index_or used.now x false ≡ true) (λ x. (x < length used.now) × (slice_index_or used.now x false ≡ false) × ((y : ℕ) → y < x → slice_index_or used.now y false ≡ true)) }
{
    used.iter().position(|taken| !*taken)
}
