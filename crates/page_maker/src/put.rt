ghost use Rattle.std.specs.Prelude.{◌≡◌, ◌-◌, ◌*◌, ◌≤◌, ◌++◌, take, replicate};
ghost use Rattle.engine.specs.Model.{row_width, step_rows};
ghost use Rattle.page_rule.specs.Pages.{page_rows};
ghost use Rattle.page_maker.specs.Promise.{PutGives};

use super::Body;
use super::count::RowCount;
use engine::{ROW_WIDTH, RowBuffer};
use page_rule::BODY_BYTES;

// The first `more` rows of the buffer, put below the rows of the body where they fit: the rows that there are then.
pub(super) fn put_rows(
    body: &mut Body,
    rows: RowCount,
    buffer: &RowBuffer,
    more: usize,
) -> Option<RowCount>
    requires { more ≤ step_rows }
    ensures { PutGives rows.count body.old buffer.now more result body.new }
{
    let total = rows.plus(more)?;
    let from = rows.count * ROW_WIDTH;
    let bytes = more * ROW_WIDTH;
    body[from..from + bytes].copy_from_slice(&buffer[0..bytes]);
    Some(total)
}

// Spaces below the rows of the body.
pub(super) fn clear_rows(body: &mut Body, rows: RowCount)
    ensures { body.new ≡ take (rows.count * row_width) body.old ++ replicate ((page_rows - rows.count) * row_width) 32 }
{
    body[rows.count * ROW_WIDTH..BODY_BYTES].fill(b' ');
}
