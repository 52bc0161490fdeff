// Where the gap is: the lines before and behind it, where the bytes before it end and those behind it begin. The memory may be given, so
// it is bytes with numbers beside them and no vector of lines.
#[derive(Clone, Copy)]
pub(crate) struct Gap {
    pub(crate) before: usize,
    pub(crate) behind: usize,
    pub(crate) front: usize,
    pub(crate) back: usize,
}
