// A lent buffer that a text is put into, byte by byte.
ghost use Rattle.std.specs.Prelude.{◌≡◌, ◌<◌, ◌^◌};

mod putting;

// The buffer, and the place of the next byte. The place may lie behind the buffer's end, so that a text put into an empty
// buffer is measured.
#[derive(Drop)]
pub struct Output<'a> {
    bytes: &'a mut [u8],
    place: usize,
    ghost range: { place < 2 ^ 64 },
}

impl<'a> Output<'a> {
    // The next byte is the buffer's first.
    pub fn new(bytes: &'a mut [u8]) -> Output<'a>
        ensures place { result.place ≡ 0 }
        ensures memory { result.bytes.now ≡ bytes.old }
        ensures lender { result.bytes.ghost_name ≡ bytes.entry.ghost_name }
    {
        Output::at(bytes, 0)
    }

    // The next byte is the one at the place, which may lie behind the buffer's end.
    pub fn at(bytes: &'a mut [u8], place: usize) -> Output<'a>
        ensures place { result.place ≡ place }
        ensures memory { result.bytes.now ≡ bytes.old }
        ensures lender { result.bytes.ghost_name ≡ bytes.entry.ghost_name }
    {
        Output { bytes, place }
    }

    // The place of the next byte, or the largest number.
    pub fn len(&self) -> usize
        ensures { result ≡ self.now.place }
    {
        self.place
    }
}
