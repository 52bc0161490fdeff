// The numberer: an engine that prints each line as it came, with the turn and stop that its number means.
#![tactic(auto)]

ghost use Rattle.std.specs.Prelude.{◌≡◌, ◌≤◌, [], length};
ghost use Rattle.line.specs.Lines.{line_limit};
ghost use Rattle.engine.specs.Model.{Stepped.goes};
ghost use Rattle.directive.specs.Grammar.{Said.directive as says};
ghost use Rattle.numberer.specs.Letters.{InItsRange};
ghost use Rattle.numberer.specs.Numbering.{Numbering, numbering, meaning, printed, obeyed};
ghost use Rattle.numberer.specs.Answered.{Answered};
ghost use Rattle.numberer.specs.Printing.{sized_step};
ghost use Rattle.std.proofs.Common.{rules};

use directive::{Parsed, parse_line};
use division::Divisor;
use engine::{Engine, EngineFault, RowBuffer};
use line::is_line;

mod fault;
mod letter;
mod rows;
mod state;

use fault::NumberFault;
pub use letter::NumberLetter;
use rows::print_rows;
pub use state::NumberState;

// No text line may have this number.
const NUMBER_LIMIT: i32 = 100_000;

#[derive(Clone, Copy)]
pub struct Numberer;

// A text line, printed at the number of the state.
fn print_text(
    mut state: NumberState,
    text: &[u8],
    rows: &mut RowBuffer,
) -> Result<(NumberState, usize), NumberFault>
    requires { length text.now ≤ line_limit }
    ensures { Answered (printed (meaning state) text.now) state rows.old result rows.new }
{
    if state.number >= NUMBER_LIMIT {
        return Err(NumberFault::NumberTooHigh);
    }
    let count = print_rows(rows, state, text);
    state.number += 1;
    Ok((state, count))
}

// A directive, whose value is in the range of its letter.
fn set(mut state: NumberState, letter: NumberLetter, value: i32) -> NumberState
    requires { InItsRange letter value }
    ensures { obeyed (meaning state) (says letter value) ≡ goes (meaning result) [] }
{
    match letter {
        NumberLetter::SetNumber => state.number = value,
        NumberLetter::SetStops => state.stops = Divisor::new(value).unwrap(),
    }
    state
}

// One line: the state after it, and the number of its rows.
fn step_line(
    state: NumberState,
    line: &[u8],
    rows: &mut RowBuffer,
) -> Result<(NumberState, usize), NumberFault>
    ensures { Answered (numbering.step (meaning state) line.now) state rows.old result rows.new }
{
    if !is_line(line) {
        return Err(NumberFault::NotALine);
    }
    match parse_line::<NumberLetter>(line)? {
        Parsed::Text { text } => print_text(state, text, rows),
        Parsed::Directive { letter, value } => Ok((set(state, letter, value), 0)),
    }
}

impl Engine for Numberer {
    type State = NumberState;

    ghost Meaning = { Numbering };

    ghost means = { meaning };

    ghost model = { λ _. numbering };

    ghost steps = { λ e m l. sized_step m l };

    ghost closes = { Prim.search rules };

    ghost lines = { Prim.search rules };

    fn start(&self) -> NumberState {
        NumberState {
            number: 0,
            stops: Divisor::new(22).unwrap(),
        }
    }

    fn step(
        &self,
        state: NumberState,
        line: &[u8],
        rows: &mut RowBuffer,
    ) -> (NumberState, Result<usize, EngineFault>) {
        match step_line(state, line, rows) {
            Ok((next, count)) => (next, Ok(count)),
            Err(fault) => (state, Err(fault.into())),
        }
    }

    fn close(&self, _state: NumberState, _rows: &mut RowBuffer) -> usize {
        0
    }

    fn same(&self, a: &NumberState, b: &NumberState) -> bool {
        a == b
    }
}
