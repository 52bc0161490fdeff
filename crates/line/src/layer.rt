// The layers that refuse.
#[derive(Clone, Copy, PartialEq, Eq, Debug)]
pub enum Layer {
    Store,
    Engine,
    PageMaker,
    Session,
}
