ghost use Rattle.std.specs.Prelude.{◌≡◌};
ghost use Rattle.page_index.specs.Faults.{refusal};

use line::Layer;

// Why a part of a page set refuses a call.
#[derive(Clone, Copy, PartialEq, Eq, Debug)]
pub enum PageSetFault {
    // What is asked does not belong to the state of the index, or what is lent is too short for its places.
    Misfit { places: usize },
    // There is no such page, or else no such row.
    NotThere { asked: usize },
    // A number of places that no page set has.
    BadPlaces { places: usize },
}

// No trait for layer and number: each kind of fault has a table of its own, and no code takes faults of any kind.
impl PageSetFault {
    // The layer of the fault.
    #[tactic(auto, using(crate::proofs::Faults::one_layer))]
    pub fn layer(&self) -> Layer
        ensures { result ≡ (refusal self.now).layer }
    {
        Layer::Session
    }

    // The number of the fault.
    pub fn number(&self) -> u8
        ensures { result ≡ (refusal self.now).number }
    {
        match self {
            PageSetFault::Misfit { .. } => 5,
            PageSetFault::NotThere { .. } => 8,
            PageSetFault::BadPlaces { .. } => 9,
        }
    }
}
