// A formatting, page after page, with the numbers that are printed of it.
#![tactic(auto)]

ghost use Rattle.formatting.specs.Promise.{NextGives};
ghost use Rattle.page_rule.specs.Steps.{StepsLaw};

use engine::Engine;
use line::LineStore;
use page_maker::{Body, PageFault, Position, make_page};
use report::{PageNumbers, Totals};

mod printed;

pub use printed::Printed;

// Makes the page that begins at the position. From the first position on, one call after the other makes the pages of the rule, in
// their order, and the last one tells their number and the sum of their steps.
// Engine and store stay two parameters: a struct of both would add a lifetime and a type to each signature.
pub fn next_page<E: Engine, L: LineStore>(
    engine: &E,
    store: &L,
    at: Position<E::State>,
    limit: u16,
    body: &mut Body,
) -> Result<Printed<E::State>, PageFault>
    ensures page { NextGives E.means (E.model engine.now) (L.lines store.now) limit at body.old result body.new }
    ensures law { StepsLaw (E.model engine.now) }
{
    let made = make_page(engine, store, at, usize::from(limit), body)?;
    let following = made.next;
    let numbers = PageNumbers {
        page: at.page,
        first: at.first,
        items: made.items,
        rows: made.rows,
        steps: made.steps,
    };
    match following {
        Some(next) => Ok(Printed::More(numbers, next)),
        None => {
            let pages = at.page + 1;
            let totals = Totals {
                pages,
                steps: store.count() + pages,
            };
            Ok(Printed::Last(numbers, totals))
        }
    }
}
