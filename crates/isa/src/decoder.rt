// From the bytes of an instruction to the instruction.
ghost use Rattle.std.specs.Prelude.{◌≡◌, ◌+◌, ◌*◌, length, IfOk, if◌then◌else◌, Some, None, nat_eq, slice_index};
ghost use Rattle.isa.specs.Decoding.{decoded, displacement_in, kind_in};
ghost use Rattle.isa.specs.Formats.{Formatted, size_at};
ghost use Rattle.words.specs.Extension.{extended};

use super::kinds::{Instruction, Kind, Opcode, Undecoded};
use super::table::lookup;
use words::extend;

// The displacement that a short format has in two bytes, with its sign.
pub(crate) fn short_displacement(a: u8, b: u8) -> u32
    ensures { result ≡ extended 16 (a * 256 + b) }
{
    extend::<i16>(u32::from(u16::from_be_bytes([a, b])))
}

// The displacement of a carried opcode, from the bytes after the fields; none where they are too few or too many.
fn displacement(op: u8, d: &[u8]) -> Option<u32>
    ensures { result ≡ (if nat_eq (length d.now + 2) (size_at op) then Some (displacement_in d.now) else None) }
{
    match (op, d) {
        (0x00..=0x7f, []) => Some(0),
        (0x80.., [a, b]) if op % 32 < 16 => Some(short_displacement(*a, *b)),
        (0x80.., [a, b, c, e]) if op % 32 >= 16 => Some(u32::from_be_bytes([*a, *b, *c, *e])),
        _ => None,
    }
}

// The kind in a carried cell, or why a cell has none.
impl TryFrom<Opcode> for Kind {
    type Error = Undecoded;

    ghost try_from_gives = { λ cell r. r ≡ kind_in cell };

    fn try_from(cell: Opcode) -> Result<Kind, Undecoded> {
        match cell {
            Opcode::Empty => Err(Undecoded::Empty),
            Opcode::NotCarried => Err(Undecoded::NotCarried),
            Opcode::Kernel => Err(Undecoded::Kernel),
            Opcode::Carried(kind) => Ok(kind),
        }
    }
}

// The instruction that the bytes are. The opcode is judged first, so its two first bytes are enough
// to tell an empty, not carried or kernel opcode.
pub fn decode(bytes: &[u8]) -> Result<Instruction, Undecoded>
    ensures value { result ≡ decoded bytes.now }
    ensures format { IfOk result (λ i. Formatted (slice_index bytes.now 0) i.kind i.size) }
{
    let [op, xy, d @ ..] = bytes else {
        return Err(Undecoded::WrongLength);
    };
    let (cell, size) = lookup(*op);
    let kind = Kind::try_from(cell)?;
    let displacement = displacement(*op, d).ok_or(Undecoded::WrongLength)?;
    Ok(Instruction {
        kind,
        size,
        x: xy / 16,
        y: xy % 16,
        displacement,
    })
}
