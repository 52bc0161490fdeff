ghost use Rattle.std.specs.Prelude.{◌≡◌, true};
ghost use Rattle.line.specs.Lines.{is_line};

use arrayvec::ArrayVec;
use line::{CheckedLine, LINE_LIMIT};

// A line in bytes of its own.
#[derive(Drop)]
pub(crate) struct LineRecord {
    bytes: ArrayVec<u8, LINE_LIMIT>,
    ghost good: { is_line bytes.items ≡ true },
}

impl LineRecord {
    pub(crate) fn bytes(&self) -> &[u8]
        ensures { result.now ≡ self.now.bytes.items }
    {
        self.bytes.as_slice()
    }
}

impl From<CheckedLine<'_>> for LineRecord {
    ghost from_gives = { λ line r. r.bytes.items ≡ line.bytes.now };

    fn from(line: CheckedLine<'_>) -> LineRecord {
        let bytes = ArrayVec::try_from(line.bytes()).unwrap();
        LineRecord { bytes }
    }
}
