ghost use Rattle.std.specs.Prelude.{◌≡◌, Some};
ghost use Rattle.line.specs.Faults.{refusal, number as number_of, values as values_of, told};

use super::fault::StoreFault;
use super::layer::Layer;
use std::fmt;

// Each kind of fault has a layer and a number by a table of its own; no code takes faults of any kind, so there is no trait for them.
impl StoreFault {
    // The layer of the fault.
    pub fn layer(&self) -> Layer
        ensures { result ≡ (refusal self.now).layer }
    {
        Layer::Store
    }

    // The number of the fault.
    pub fn number(&self) -> u8
        ensures { result ≡ number_of self.now }
    {
        match self {
            StoreFault::NoLine { .. } => 1,
            StoreFault::TooLong { .. } => 2,
            StoreFault::BadByte { .. } => 3,
            StoreFault::Full { .. } => 4,
        }
    }
}

// The number and the values, one space between two.
impl fmt::Display for StoreFault {
    ghost output = { λ f. Some (told (number_of f) (values_of f)) };

    fn fmt<W: fmt::Write>(&self, f: &mut fmt::Formatter<W>) -> fmt::Result {
        let number = self.number();
        match self {
            StoreFault::NoLine { line, count } => write!(f, "{number} {line} {count}"),
            StoreFault::TooLong { length } => write!(f, "{number} {length}"),
            StoreFault::BadByte { column } => write!(f, "{number} {column}"),
            StoreFault::Full { charges, capacity } => write!(f, "{number} {charges} {capacity}"),
        }
    }
}
