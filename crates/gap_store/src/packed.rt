// Packed lines, each as its length, its bytes and its length again.
ghost use Rattle.std.specs.Prelude.{◌≡◌, ◌<◌, ◌≤◌, [], length, slice_index_or};
ghost use Rattle.gap_store.specs.Records.{packed, unpacked, Packed};

// So many lines, packed one after the other.
#[derive(Clone, Copy)]
pub(crate) struct PackedLines<'a> {
    bytes: &'a [u8],
    count: usize,
    ghost whole: { Packed count bytes.now },
}

impl<'a> PackedLines<'a> {
    pub(crate) fn new(bytes: &'a [u8], count: usize) -> PackedLines<'a>
        requires { Packed count bytes.now }
        ensures bytes { result.bytes.now ≡ bytes.now }
        ensures count { result.count ≡ count }
    {
        PackedLines { bytes, count }
    }

    // Where line `at` starts, from the front. The loop walks over lengths and not over the items of a slice; a fold would need the same
    // invariant for its closure.
    fn forward(&self, at: usize) -> usize
        requires { at ≤ self.now.count }
        ensures { result ≡ length (packed (unpacked at self.now.bytes.now)) }
    {
        let mut start = 0;
        for _line in 0..at {
            start += self.bytes[start] as usize + 2;
        }
        start
    }

    // Where line `at` starts, from the end; a walk over lengths too.
    fn backward(&self, at: usize) -> usize
        requires { at ≤ self.now.count }
        ensures { result ≡ length (packed (unpacked at self.now.bytes.now)) }
    {
        let mut start = self.bytes.len();
        for _line in (at..self.count).rev() {
            start -= self.bytes[start - 1] as usize + 2;
        }
        start
    }

    // Where line `at` starts, from the nearer end.
    pub(crate) fn start(&self, at: usize) -> usize
        requires { at ≤ self.now.count }
        ensures { result ≡ length (packed (unpacked at self.now.bytes.now)) }
    {
        if at <= self.count - at {
            self.forward(at)
        } else {
            self.backward(at)
        }
    }

    pub(crate) fn line(&self, at: usize) -> &'a [u8]
        requires { at < self.now.count }
        ensures { result.now ≡ slice_index_or (unpacked self.now.count self.now.bytes.now) at [] }
    {
        let start = self.start(at) + 1;
        let length = self.bytes[start - 1] as usize;
        &self.bytes[start..start + length]
    }
}
