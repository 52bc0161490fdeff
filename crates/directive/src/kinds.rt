ghost use Rattle.std.specs.Prelude.{◌≡◌};
ghost use Rattle.directive.specs.Grammar.{fault_of};

use engine::EngineFault;

// The decimal argument of a directive: whether a minus may stand in front, the most digits, and the range.
#[derive(Clone, Copy)]
pub struct Argument {
    pub minus: bool,
    pub digits: usize,
    pub low: i32,
    pub high: i32,
}

// What a line says to an engine with the letters L.
#[derive(Drop)]
pub enum Parsed<'a, L> {
    Text { text: &'a [u8] },
    // The value is 0 where the letter takes nothing: an engine whose letters all take a number would have to rule out a missing one.
    Directive { letter: L, value: i32 },
}

// Why a line is neither text nor a directive.
#[derive(Clone, Copy, PartialEq, Eq, Debug)]
pub enum Malformed {
    // No letter, or none of the engine's.
    UnknownLetter,
    // Not what the letter takes.
    NotBehindLetter,
    // No number, or one out of range.
    BadArgument,
}

impl From<Malformed> for EngineFault {
    ghost from_gives = { λ malformed fault. fault ≡ fault_of malformed };

    fn from(malformed: Malformed) -> EngineFault {
        let (cause, column) = match malformed {
            Malformed::UnknownLetter => (1, 1),
            Malformed::NotBehindLetter => (2, 2),
            Malformed::BadArgument => (2, 3),
        };
        EngineFault { cause, column }
    }
}
