ghost use Rattle.std.specs.Prelude.{◌≡◌, ◌<◌, IfSome};
ghost use Rattle.numerals.specs.Reads.{natural as natural_of, integer as integer_of, ReadsBack};

// The most digits that are ever taken.
pub const DIGIT_LIMIT: usize = 9;

// One digit or more, at most `most`, and nothing else. The library's `parse` takes a plus in front too.
fn natural(text: &[u8], most: usize) -> Option<u32>
    ensures value { result ≡ natural_of most text.now }
    ensures small { IfSome result (λ n. n < 1000000000) }
{
    if text.is_empty() || text.len() > most.min(DIGIT_LIMIT) {
        return None;
    }
    let mut value: u32 = 0;
    for byte in text {
        if !byte.is_ascii_digit() {
            return None;
        }
        value = value * 10 + u32::from(*byte - b'0');
    }
    Some(value)
}

// A decimal argument of at most `most` digits, with a minus in front where one is allowed.
#[tactic(auto, using(crate::proofs::ByDigit::reads_back))]
pub fn integer(text: &[u8], minus: bool, most: usize) -> Option<i32>
    ensures value { result ≡ integer_of minus most text.now }
    ensures back { ReadsBack }
{
    match text {
        [b'-', digits @ ..] if minus => Some(-(natural(digits, most)? as i32)),
        _ => Some(natural(text, most)? as i32),
    }
}
