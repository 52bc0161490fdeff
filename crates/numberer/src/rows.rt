ghost use Rattle.std.specs.Prelude.{◌≡◌, ◌≤◌, ◌++◌, length, replicate, pos};
ghost use Rattle.line.specs.Lines.{line_limit};
ghost use Rattle.engine.specs.Model.{row_width};
ghost use Rattle.engine.specs.Promise.{fronted};
ghost use Rattle.division.specs.Floor.{quotient, remainder};
ghost use Rattle.numberer.specs.Rows.{text_column, text_width, padded, row_of};
ghost use Rattle.numberer.specs.Numbering.{meaning, rows_at};

use crate::NumberState;
use division::floor_div;
use engine::{ROW_WIDTH, RowBuffer};
use numerals::put_number;

// The columns of the turn, the stop and the text.
const TURN_COLUMN: usize = 0;

const TURN_WIDTH: usize = 7;

const STOP_COLUMN: usize = 8;

const STOP_WIDTH: usize = 3;

const TEXT_COLUMN: usize = 12;

const TEXT_WIDTH: usize = 60;

// A text in its columns, and spaces before and behind it.
#[tactic(auto, using(crate::proofs::Columns::texted))]
fn set_text(row: &mut [u8], text: &[u8])
    requires size { length row.old ≡ row_width }
    requires short { length text.now ≤ text_width }
    ensures { row.new ≡ replicate text_column 32 ++ padded text_width text.now }
{
    row.fill(b' ');
    row[TEXT_COLUMN..TEXT_COLUMN + text.len()].copy_from_slice(text);
}

// The turn and stop of the state's number and a text in their columns, and spaces between and behind them.
fn set_first_row(row: &mut [u8], state: NumberState, text: &[u8])
    requires size { length row.old ≡ row_width }
    requires short { length text.now ≤ text_width }
    ensures { let m = meaning state in row.new ≡ row_of (quotient m.number m.stops) (pos (remainder m.number m.stops)) text.now }
{
    let place = floor_div(state.number, state.stops);
    set_text(row, text);
    put_number(row, TURN_COLUMN, TURN_WIDTH, place.quotient).unwrap();
    put_number(row, STOP_COLUMN, STOP_WIDTH, place.remainder).unwrap();
}

// The rows of a text line at the front of the buffer; the answer is their number.
pub(super) fn print_rows(rows: &mut RowBuffer, state: NumberState, text: &[u8]) -> usize
    requires { length text.now ≤ line_limit }
    ensures count { result ≡ length (rows_at (meaning state) text.now) }
    ensures buffer { rows.new ≡ fronted (rows_at (meaning state) text.now) rows.old }
{
    let (first, rest) = text.split_at(TEXT_WIDTH.min(text.len()));
    set_first_row(&mut rows[0..ROW_WIDTH], state, first);
    if rest.is_empty() {
        return 1;
    }
    set_text(&mut rows[ROW_WIDTH..2 * ROW_WIDTH], rest);
    2
}
