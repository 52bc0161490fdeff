ghost use Rattle.std.specs.Prelude.{◌≡◌, pos, ◌≤ℤ◌, ◌<ℤ◌, MatchOption};

// A number above 0 to divide by.
#[derive(Clone, Copy, PartialEq, Eq, Debug)]
pub struct Divisor {
    value: i32,
    ghost positive: { pos 0 <ℤ value },
}

impl Divisor {
    // None exactly where the value is not above 0, as the library's `NonZero` has it; a `TryFrom` would need an error type that says no more.
    pub fn new(value: i32) -> Option<Divisor>
        ensures { MatchOption result (value ≤ℤ pos 0) (λ d. d.value ≡ value) }
    {
        if value <= 0 {
            return None;
        }
        Some(Divisor { value })
    }

    pub fn value(&self) -> i32
        ensures { result ≡ self.now.value }
    {
        self.value
    }
}
