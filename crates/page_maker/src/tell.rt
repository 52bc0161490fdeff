ghost use Rattle.std.specs.Prelude.{◌≡◌, Some};
ghost use Rattle.line.specs.Faults.{told};
ghost use Rattle.page_maker.specs.Faults.{refusal, number as number_of, values as values_of};

use super::fault::{LineFault, PageFault};
use engine::EngineFault;
use line::Layer;
use std::fmt;

// No trait for layer and number: each kind of fault has a table of its own, and no code takes faults of any kind.
impl PageFault {
    // The layer of the fault: the engine's where it refused a line.
    pub fn layer(&self) -> Layer
        ensures { result ≡ (refusal self.now).layer }
    {
        match self {
            PageFault::Engine(_) => Layer::Engine,
            PageFault::TooManyPages { .. } => Layer::PageMaker,
        }
    }

    // The number of the fault.
    pub fn number(&self) -> u8
        ensures { result ≡ number_of self.now }
    {
        match self {
            PageFault::Engine(_) => 6,
            PageFault::TooManyPages { .. } => 7,
        }
    }
}

// The number and the values, one space between two.
impl fmt::Display for PageFault {
    ghost output = { λ f. Some (told (number_of f) (values_of f)) };

    fn fmt<W: fmt::Write>(&self, f: &mut fmt::Formatter<W>) -> fmt::Result {
        let number = self.number();
        match self {
            PageFault::Engine(
                LineFault {
                    fault: EngineFault { cause, column },
                    line,
                    page,
                },
            ) => write!(f, "{number} {cause} {column} {line} {page}"),
            PageFault::TooManyPages { first, limit } => write!(f, "{number} {first} {limit}"),
        }
    }
}
