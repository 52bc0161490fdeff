ghost use Rattle.std.specs.Prelude.{◌≡◌, Decides};
ghost use Rattle.std.specs.Option.{UnwrapsOrElse};
ghost use Rattle.page_rule.specs.Pages.{page_rows, body_bytes};
ghost use Rattle.page_rule.specs.Shape.{most_pages, ShapeLaw};
ghost use Rattle.page_rule.specs.Steps.{StepsLaw};
ghost use Rattle.page_rule.specs.Head.{HeadLaw};
ghost use Rattle.page_rule.specs.Moving.{MovedGives};
ghost use Rattle.page_rule.specs.Tail.{Alike, TailLaw};

use super::{BODY_BYTES, PAGE_ROWS};
use engine::Engine;

// The rows of a page and the bytes of its body, as the definitions have them. Each ties one constant to its own definition, so there is
// nothing to share.
pub fn page_rows() -> usize
    ensures { result ≡ page_rows }
{
    PAGE_ROWS
}

pub fn body_bytes() -> usize
    ensures { result ≡ body_bytes }
{
    BODY_BYTES
}

// The most pages that an engine gives to a text of so many lines, under a limit.
#[tactic(auto, using(crate::proofs::Counting::steps_law))]
pub fn most_pages<E: Engine>(engine: &E, line_count: usize, limit: usize) -> usize
    ensures count { result ≡ most_pages limit line_count }
    ensures shape { ShapeLaw (E.model engine.now) }
    ensures steps { StepsLaw (E.model engine.now) }
{
    limit.min(line_count.saturating_add(1))
}

// The state from which a page is made again: its checkpoint, or the start state where there is none.
pub fn restart_state<E: Engine>(engine: &E, checkpoint: Option<E::State>) -> E::State
    ensures state { UnwrapsOrElse checkpoint (λ s. E.means s ≡ (E.model engine.now).start) result }
    ensures law { HeadLaw (E.model engine.now) }
{
    checkpoint.unwrap_or_else(|| engine.start())
}

// Where an item lies, once what was item `from` is item `to`.
pub fn moved_item(item: usize, from: usize, to: usize) -> Option<usize>
    ensures { MovedGives from to item result }
{
    if from <= to {
        item.checked_add(to - from)
    } else {
        item.checked_sub(from - to)
    }
}

// Whether the pages from an item on are the old ones, if the lines are: the item is where the old one has moved to, and the states
// before them mean the same. Items, states and the two ends come from an entry, a checkpoint table and the session's numbers apart, so
// there is no struct of two of them to pass.
#[tactic(auto, using(crate::proofs::Tail::tail_law))]
pub fn same_start<E: Engine>(
    engine: &E,
    old_item: usize,
    old_state: &E::State,
    item: usize,
    state: &E::State,
    from: usize,
    to: usize,
) -> bool
    ensures answer { Decides result (Alike from to old_item item (E.means old_state.now) (E.means state.now)) }
    ensures law { TailLaw (E.model engine.now) }
{
    moved_item(old_item, from, to) == Some(item) && engine.same(old_state, state)
}
