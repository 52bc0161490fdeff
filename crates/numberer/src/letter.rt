ghost use Rattle.numberer.specs.Letters.{spelled as spelled_of, takes as takes_of};

use directive::{Argument, Letter};

// The numberer's letters: `.n` sets the number, `.m` the stops of a turn.
#[derive(Clone, Copy, PartialEq, Eq, Debug)]
pub enum NumberLetter {
    SetNumber,
    SetStops,
}

// The numbers that `.n` sets, and the most stops of a turn.
pub const LOWEST_NUMBER: i32 = -99_999;

pub const HIGHEST_NUMBER: i32 = 99_999;

pub const MOST_STOPS: i32 = 256;

impl Letter for NumberLetter {
    ghost spelled = { spelled_of };

    ghost takes = { takes_of };

    fn from_byte(byte: u8) -> Option<NumberLetter> {
        match byte {
            b'n' => Some(NumberLetter::SetNumber),
            b'm' => Some(NumberLetter::SetStops),
            _ => None,
        }
    }

    fn argument(self) -> Option<Argument> {
        match self {
            NumberLetter::SetNumber => Some(Argument {
                minus: true,
                digits: 5,
                low: LOWEST_NUMBER,
                high: HIGHEST_NUMBER,
            }),
            NumberLetter::SetStops => Some(Argument {
                minus: false,
                digits: 3,
                low: 1,
                high: MOST_STOPS,
            }),
        }
    }
}
