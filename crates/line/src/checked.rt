ghost use Rattle.std.specs.Prelude.{◌≡◌, true, None, Some, MatchResult};
ghost use Rattle.line.specs.Lines.{is_line};
ghost use Rattle.line.specs.Faults.{line_fault};

use super::check::check_line;
use super::fault::StoreFault;

// Bytes that are a line.
#[derive(Clone, Copy)]
pub struct CheckedLine<'a> {
    bytes: &'a [u8],
    ghost good: { is_line bytes.now ≡ true },
}

impl<'a> TryFrom<&'a [u8]> for CheckedLine<'a> {
    type Error = StoreFault;

    ghost try_from_gives = { λ bytes r. MatchResult r (λ l. (l.bytes.now ≡ bytes.now) × (line_fault bytes.now ≡ None)) (λ f. line_fault bytes.now ≡ Some f) };

    fn try_from(bytes: &'a [u8]) -> Result<CheckedLine<'a>, StoreFault> {
        check_line(bytes)?;
        Ok(CheckedLine { bytes })
    }
}

impl<'a> CheckedLine<'a> {
    pub fn bytes(&self) -> &'a [u8]
        ensures { result.now ≡ self.now.bytes.now }
    {
        self.bytes
    }
}
