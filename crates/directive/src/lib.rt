// Lines that are text, and lines that are directives to an engine.
#![tactic(auto)]

ghost use Rattle.std.specs.Prelude.{◌≡◌, ℕ, Option};
ghost use Rattle.numerals.specs.Reads.{integer as integer_of};
ghost use Rattle.directive.specs.declared.kinds.Argument.{Argument};
ghost use Rattle.directive.specs.Grammar.{said, answered, behind, ranged};

use numerals::integer;

mod kinds;

pub use kinds::{Argument, Malformed, Parsed};

// The letters of an engine, and what each of them takes.
pub trait Letter: Copy {
    ghost spelled: { ℕ → Option Self };

    ghost takes: { Self → Option Argument };

    // The letter that a byte stands for. A `TryFrom<u8>` would need an error type, and a law beside `spelled`.
    fn from_byte(byte: u8) -> Option<Self>
        ensures { result ≡ spelled byte };

    // The argument that stands behind the letter, where it takes one.
    fn argument(self) -> Option<Argument>
        ensures { result ≡ takes self };
}

// The argument of a directive, where it is one and in range.
fn parse_argument<'a, L: Letter>(
    letter: L,
    argument: Argument,
    digits: &[u8],
) -> Result<Parsed<'a, L>, Malformed>
    ensures { answered result ≡ ranged letter argument (integer_of argument.minus argument.digits digits.now) }
{
    let value = integer(digits, argument.minus, argument.digits)
        .filter(|value| (argument.low..=argument.high).contains(value))
        .ok_or(Malformed::BadArgument)?;
    Ok(Parsed::Directive { letter, value })
}

// A directive by its letter and what stands behind it.
fn parse_directive<'a, L: Letter>(letter: L, rest: &[u8]) -> Result<Parsed<'a, L>, Malformed>
    ensures { answered result ≡ behind letter (L.takes letter) rest.now }
{
    match (letter.argument(), rest) {
        (None, []) => Ok(Parsed::Directive { letter, value: 0 }),
        (Some(argument), [b' ', digits @ ..]) => parse_argument(letter, argument, digits),
        _ => Err(Malformed::NotBehindLetter),
    }
}

// What a line says to an engine with the letters L.
pub fn parse_line<'a, L: Letter>(line: &'a [u8]) -> Result<Parsed<'a, L>, Malformed>
    ensures { answered result ≡ said L.spelled L.takes line.now }
{
    match line {
        [b'.', b'.', ..] => Ok(Parsed::Text { text: &line[1..] }),
        [b'.', letter, rest @ ..] => {
            let letter = L::from_byte(*letter).ok_or(Malformed::UnknownLetter)?;
            parse_directive(letter, rest)
        }
        [b'.'] => Err(Malformed::UnknownLetter),
        text => Ok(Parsed::Text { text }),
    }
}
