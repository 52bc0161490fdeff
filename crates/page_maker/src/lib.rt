// Makes one page by the page rule, over any engine and any line store.
#![tactic(auto)]

ghost use Rattle.std.specs.Prelude.{◌≡◌, ℕ, List, [], length, drop};
ghost use Rattle.line.specs.Lines.{Line};
ghost use Rattle.page_rule.specs.Filling.{fill, stepped};
ghost use Rattle.page_rule.specs.Formatting.{formatted};
ghost use Rattle.page_maker.specs.Promise.{PageGives, FillGives, PlaceGives, LineGives, EndGives, ahead};

use engine::{Engine, EngineFault, ROW_WIDTH, STEP_ROWS};
use line::{LINE_LIMIT, LineStore};
use page_rule::BODY_BYTES;

mod count;
mod fault;
mod made;
mod put;
mod tell;

use count::RowCount;
pub use fault::{LineFault, PageFault};
use made::{Filling, Placed};
pub use made::{Made, Position};
use put::{clear_rows, put_rows};

// The body of a page: 40 rows of 72 bytes. It is lent with the number of its rows beside it, since whoever keeps bodies owns their
// memory.
pub type Body = [u8; BODY_BYTES];

// A line onto the page, where it fits below the rows there.
fn place_line<E: Engine>(
    engine: &E,
    line: &[u8],
    state: E::State,
    rows: RowCount,
    body: &mut Body,
) -> Result<Placed<E::State>, EngineFault>
    ensures { LineGives E.means ((E.model engine.now).step (E.means state) line.now) rows.count body.old result body.new }
{
    let mut buffer = [0u8; STEP_ROWS * ROW_WIDTH];
    let (next, answer) = engine.step(state, line, &mut buffer);
    let more = answer?;
    let Some(total) = put_rows(body, rows, &buffer, more) else {
        return Ok(Placed::Over);
    };
    Ok(Placed::On(next, total))
}

// The end onto the page, where it fits below the rows there: the rows that there are then.
fn place_end<E: Engine>(
    engine: &E,
    state: E::State,
    rows: RowCount,
    body: &mut Body,
) -> Option<RowCount>
    ensures { EndGives (E.means state) ((E.model engine.now).close (E.means state)) rows.count body.old result body.new }
{
    let mut buffer = [0u8; STEP_ROWS * ROW_WIDTH];
    let more = engine.close(state, &mut buffer);
    put_rows(body, rows, &buffer, more)
}

// One item onto the page: a line, or the end where there is no such line.
fn place_item<E: Engine, L: LineStore>(
    engine: &E,
    store: &L,
    item: usize,
    state: E::State,
    rows: RowCount,
    body: &mut Body,
) -> Result<Placed<E::State>, EngineFault>
    ensures { PlaceGives E.means (length (L.lines store.now)) item (stepped (E.model engine.now) (E.means state) (drop item (L.lines store.now))) (E.means state) rows.count body.old result body.new }
{
    let mut line = [0u8; LINE_LIMIT];
    match store.read(item, &mut line) {
        Ok(length) => place_line(engine, &line[0..length], state, rows, body),
        Err(_) => Ok(place_end(engine, state, rows, body).map_or(
            Placed::Over,
            |total| Placed::End(total),
        )),
    }
}

// Items from the position on, until one does not fit or the end is on the page. `items` is counted by hand: a `for` without an end
// would need a line behind it that is never reached.
fn fill_page<E: Engine, L: LineStore>(
    engine: &E,
    store: &L,
    at: Position<E::State>,
    body: &mut Body,
) -> Result<Filling<E::State>, LineFault>
    ensures { FillGives E.means (length (L.lines store.now)) (fill (E.model engine.now) (drop at.first (L.lines store.now)) (E.means at.state) 0 []) at.first at.page body.old result body.new }
{
    let first = at.first;
    let mut state = at.state;
    let mut items = 0;
    let mut rows = RowCount::none();
    let (items, rows, next) = 'page: loop {
        let item = first + items;
        let placed = place_item(engine, store, item, state, rows, body).map_err(
            |fault| LineFault {
                fault,
                line: item,
                page: at.page,
            },
        )?;
        match placed {
            Placed::Over => break 'page (items, rows, Some(state)),
            Placed::End(total) => break 'page (items + 1, total, None),
            Placed::On(next, total) => {
                items += 1;
                rows = total;
                state = next;
            }
        }
    };
    clear_rows(body, rows);
    Ok(Filling {
        items,
        rows: rows.count,
        next,
    })
}

// Where page 0 begins: what the rule has from there on is the whole formatting.
pub fn first_position<E: Engine>(engine: &E) -> Position<E::State>
    ensures page { result.page ≡ 0 }
    ensures first { result.first ≡ 0 }
    ensures state { E.means result.state ≡ (E.model engine.now).start }
    ensures whole { (limit : ℕ) (text : List Line) → ahead E.means (E.model engine.now) text limit result ≡ formatted (E.model engine.now) limit text }
{
    Position {
        page: 0,
        first: 0,
        state: engine.start(),
    }
}

// One page by the page rule: its numbers, its body, and where the next page begins. A struct of engine and store would add a lifetime
// and a type to each signature and say no more.
pub fn make_page<E: Engine, L: LineStore>(
    engine: &E,
    store: &L,
    at: Position<E::State>,
    limit: usize,
    body: &mut Body,
) -> Result<Made<E::State>, PageFault>
    ensures { PageGives E.means (E.model engine.now) (L.lines store.now) limit at body.old result body.new }
{
    if at.page >= limit {
        return Err(PageFault::TooManyPages {
            first: at.first,
            limit,
        });
    }
    let filling = fill_page(engine, store, at, body)?;
    // Two arms, each with its steps, are plainer than a sum with `usize::from` of whether there is a next page.
    match filling.next {
        None => Ok(Made {
            items: filling.items,
            rows: filling.rows,
            steps: filling.items,
            next: None,
        }),
        Some(state) => Ok(Made {
            items: filling.items,
            rows: filling.rows,
            steps: filling.items + 1,
            next: Some(Position {
                page: at.page + 1,
                first: at.first + filling.items,
                state,
            }),
        }),
    }
}
