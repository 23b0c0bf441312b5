// The bytes of an encoded instruction.
ghost use Rattle.std.specs.Prelude.{◌≤◌};

// The first `size` bytes are the encoding; the rest has no meaning.
#[derive(Clone, Copy, PartialEq, Eq, Debug)]
pub struct Encoding {
    pub bytes: [u8; 6],
    pub size: usize,
    ghost within: { size ≤ 6 },
}

impl Encoding {
    ghost use Rattle.std.specs.Prelude.{◌≡◌};
    ghost use Rattle.isa.specs.Encoded.{bytes_of};

    pub fn as_slice(&self) -> &[u8]
        ensures { result.now ≡ bytes_of self.now }
    {
        &self.bytes[0..self.size]
    }
}
