ghost use Rattle.std.specs.Prelude.{◌≡◌, Some, None, MatchResult, position, not};
ghost use Rattle.line.specs.Lines.{is_line, printable};
ghost use Rattle.line.specs.Faults.{line_fault};

use super::fault::StoreFault;
use super::store::LINE_LIMIT;

// The bytes that a line may hold lie between these.
const FIRST_BYTE: u8 = 32;

const LAST_BYTE: u8 = 126;

// Whether a line may hold a byte.
fn is_printable(byte: u8) -> bool
    ensures { result ≡ printable byte }
{
    (FIRST_BYTE..=LAST_BYTE).contains(&byte)
}

// The column of the first byte that a line may not hold.
fn bad_column(bytes: &[u8]) -> Option<usize>
    ensures { result ≡ position (λ b. not (printable b)) bytes.now }
{
    bytes.iter().position(|byte| !is_printable(*byte))
}

// Whether bytes are a line; the fault says why they are not.
#[tactic(auto, using(crate::proofs::Columns::bad_position))]
pub fn check_line(bytes: &[u8]) -> Result<(), StoreFault>
    ensures { MatchResult result (λ _. line_fault bytes.now ≡ None) (λ f. line_fault bytes.now ≡ Some f) }
{
    if bytes.len() > LINE_LIMIT {
        return Err(StoreFault::TooLong {
            length: bytes.len(),
        });
    }
    match bad_column(bytes) {
        None => Ok(()),
        Some(column) => Err(StoreFault::BadByte { column }),
    }
}

pub fn is_line(bytes: &[u8]) -> bool
    ensures { result ≡ is_line bytes.now }
{
    check_line(bytes).is_ok()
}
