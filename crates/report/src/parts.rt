// The bytes of a code fill, part by part: instructions, and bytes that are none.
ghost use Rattle.std.specs.Prelude.{◌≡◌, ◌+◌, ◌<◌, ◌^◌, [], length, MatchOption};
ghost use Rattle.std.specs.Iterator.{at_most};
ghost use Rattle.report.specs.Parts.{Begins, GivesPart, content_of};

use isa::{Instruction, Undecoded, decode, lookup};

// What the bytes of a part are. Bytes that are no instruction are listed like the others, so they are no error.
#[derive(Clone, Copy)]
pub enum Content {
    Carried(Instruction),
    Empty,
    NotCarried,
    Kernel,
    // the start of an instruction that the fill does not finish
    Cut,
    // a byte at an odd address, where no instruction can begin
    Odd,
}

// Bytes at an even address, by their decoding.
impl From<Result<Instruction, Undecoded>> for Content {
    ghost from_gives = { λ r c. c ≡ content_of r };

    fn from(decoded: Result<Instruction, Undecoded>) -> Content {
        match decoded {
            Ok(instruction) => Content::Carried(instruction),
            Err(Undecoded::Empty) => Content::Empty,
            Err(Undecoded::NotCarried) => Content::NotCarried,
            Err(Undecoded::Kernel) => Content::Kernel,
            Err(Undecoded::WrongLength) => Content::Cut,
        }
    }
}

// Some bytes at an address of a page, and what they are.
#[derive(Clone, Copy)]
pub struct Part<'a> {
    pub address: usize,
    pub bytes: &'a [u8],
    pub content: Content,
}

// How many of the bytes, which begin at `address`, belong to the first part, and what they are.
fn first(address: usize, bytes: &[u8]) -> Option<(usize, Content)>
    ensures { MatchOption result (bytes.now ≡ []) (λ r. Begins address bytes.now r.0 r.1) }
{
    let op = bytes.first()?;
    if address % 2 == 1 {
        return Some((1, Content::Odd));
    }
    // An empty opcode has no size of its own, and the bytes may end before the instruction does.
    let (_, size) = lookup(*op);
    let size = usize::from(size).max(2).min(bytes.len());
    Some((size, Content::from(decode(&bytes[..size]))))
}

// The parts of some bytes that are left, and the address of the first.
#[derive(Drop)]
pub struct Parts<'a> {
    pub address: usize,
    pub bytes: &'a [u8],
    ghost fits: { address + length bytes.now < 2 ^ 64 },
}

impl<'a> Parts<'a> {
    // All parts of the bytes, which begin at `offset`.
    pub fn new(offset: u16, bytes: &'a [u8]) -> Parts<'a>
        ensures address { result.address ≡ offset }
        ensures bytes { result.bytes.now ≡ bytes.now }
    {
        Parts {
            address: usize::from(offset),
            bytes,
        }
    }
}

impl<'a> Iterator for Parts<'a> {
    type Item = Part<'a>;

    ghost next_gives = { λ s r t. GivesPart s.address s.bytes.now t.address t.bytes.now r };

    ghost remaining = { λ s. at_most (length s.bytes.now) };

    fn next(&mut self) -> Option<Part<'a>> {
        let address = self.address;
        let (size, content) = first(address, self.bytes)?;
        let (bytes, rest) = self.bytes.split_at(size);
        *self = Parts {
            address: address + size,
            bytes: rest,
        };
        Some(Part {
            address,
            bytes,
            content,
        })
    }
}
