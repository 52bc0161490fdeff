ghost use Rattle.std.specs.Prelude.{◌≡◌};
ghost use Rattle.page_maker.specs.declared.fault.PageFault.TheVariants.{Engine};

use engine::EngineFault;

// The engine's fault, with the line that it refused and the page being made.
#[derive(Clone, Copy, PartialEq, Eq, Debug)]
pub struct LineFault {
    pub fault: EngineFault,
    pub line: usize,
    pub page: usize,
}

// Why a page is not made.
#[derive(Clone, Copy, PartialEq, Eq, Debug)]
pub enum PageFault {
    Engine(LineFault),
    // The first item of the page that is one too many, and the limit.
    TooManyPages { first: usize, limit: usize },
}

impl From<LineFault> for PageFault {
    ghost from_gives = { λ f r. r ≡ Engine f };

    fn from(fault: LineFault) -> PageFault {
        PageFault::Engine(fault)
    }
}
