ghost use Rattle.std.specs.Prelude.{◌≡◌};
ghost use Rattle.numberer.specs.declared.fault.NumberFault.TheVariants.{Malformed as malformed_fault};
ghost use Rattle.numberer.specs.Answered.{fault_of};

use directive::Malformed;
use engine::EngineFault;

// Why the numberer refuses a line.
#[derive(Clone, Copy, PartialEq, Eq, Debug)]
pub(super) enum NumberFault {
    NotALine,
    Malformed(Malformed),
    // A text line would have a number that none may have.
    NumberTooHigh,
}

impl From<Malformed> for NumberFault {
    ghost from_gives = { λ malformed fault. fault ≡ malformed_fault malformed };

    fn from(malformed: Malformed) -> NumberFault {
        NumberFault::Malformed(malformed)
    }
}

impl From<NumberFault> for EngineFault {
    ghost from_gives = { λ fault f. f ≡ fault_of fault };

    fn from(fault: NumberFault) -> EngineFault {
        match fault {
            NumberFault::NotALine => EngineFault {
                cause: 9,
                column: 0,
            },
            NumberFault::Malformed(malformed) => malformed.into(),
            NumberFault::NumberTooHigh => EngineFault {
                cause: 3,
                column: 0,
            },
        }
    }
}
