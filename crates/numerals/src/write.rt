ghost use Rattle.std.specs.Prelude.{◌≡◌, length, is_ok, if◌then◌else◌};
ghost use Rattle.numerals.specs.Fields.{placed, verdict, FieldLaw};

use itoa::Buffer;

// Why a number is not put into a row.
#[derive(Clone, Copy, PartialEq, Eq, Debug)]
pub enum FieldFault {
    // The field does not lie in the row.
    Outside,
    // The number is wider than the field.
    TooWide,
}

// Writes v at the right end of the field of `width` bytes at `at`. At a refusal the row is as it was.
#[tactic(auto, using(crate::proofs::RightAligned::law, crate::proofs::RightAligned::set_digits_first, crate::proofs::RightAligned::set_minus_again))]
pub fn put_number(row: &mut [u8], at: usize, width: usize, v: i32) -> Result<(), FieldFault>
    ensures verdict { result ≡ verdict (length row.old) at width v }
    ensures row { row.new ≡ (if is_ok result then placed row.old at width v else row.old) }
    ensures law { FieldLaw }
{
    if width > row.len() || at > row.len() - width {
        return Err(FieldFault::Outside);
    }
    let mut buffer = Buffer::new();
    let digits = buffer.format(v).as_bytes();
    if digits.len() > width {
        return Err(FieldFault::TooWide);
    }
    let from = at + width - digits.len();
    row[from..at + width].copy_from_slice(digits);
    row[at..from].fill(b' ');
    Ok(())
}
