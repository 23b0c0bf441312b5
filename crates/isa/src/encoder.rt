// From an instruction to its bytes.
ghost use Rattle.std.specs.Prelude.{◌≡◌};
ghost use Rattle.isa.specs.Encoded.{Encodes};
ghost use Rattle.isa.specs.Opcodes.{column, opcode_of, place};

use super::decoder::short_displacement;
use super::encoding::Encoding;
use super::kinds::{Indexing, Instruction, Kind, Relation, Second, Side, Width};

// The column of a relation among the tests and branches.
fn relation_column(r: Relation) -> u8
    ensures { result ≡ column r }
{
    match r {
        Relation::Greater => 0,
        Relation::Less => 1,
        Relation::Equal => 2,
        Relation::LessOrEqual => 8,
        Relation::GreaterOrEqual => 9,
        Relation::NotEqual => 10,
    }
}

// The column of an operand's width among the loads and stores; the indexed form stands next to the direct one.
fn width_column(w: Width, i: Indexing) -> u8
    ensures { result ≡ place w i }
{
    w.pick(0, 2, 6, 8) + i as u8
}

// The opcode of a kind, in its short form where it has two; none where the map has no such instruction.
fn opcode(kind: Kind) -> Option<u8>
    ensures { result ≡ opcode_of kind }
{
    match kind {
        Kind::Move(s) => Some(0x01 + s.pick(0, 16)),
        Kind::Neg => Some(0x02),
        Kind::Add(s) => Some(0x03 + s.pick(0, 16)),
        Kind::Sub(s) => Some(0x04 + s.pick(0, 16)),
        Kind::Mpy(s) => Some(0x05 + s.pick(0, 16)),
        Kind::Div => Some(0x06),
        Kind::Rem => Some(0x07),
        Kind::Not(s) => Some(0x08 + s.pick(0, 16)),
        Kind::Or => Some(0x09),
        Kind::Xor => Some(0x0a),
        Kind::And(s) => Some(0x0b + s.pick(0, 16)),
        Kind::Cbit => Some(0x0c),
        Kind::Sbit => Some(0x0d),
        Kind::Tbit => Some(0x0e),
        Kind::Chk(s) => Some(0x0f + s.pick(0, 16)),
        Kind::Nop => Some(0x10),
        Kind::Lcomp => Some(0x28),
        Kind::Dcomp => Some(0x38),
        Kind::Trap => Some(0x3b),
        Kind::Test(r, s) => Some(0x50 + relation_column(r) + s.pick(0, 4)),
        Kind::Callr => Some(0x53),
        Kind::Ret => Some(0x57),
        Kind::Kcall => Some(0x5b),
        Kind::Lsl(s) => Some(0x60 + s.pick(0, 16)),
        Kind::Lsr(s) => Some(0x61 + s.pick(0, 16)),
        Kind::Asl(s) => Some(0x62 + s.pick(0, 16)),
        Kind::Asr(s) => Some(0x63 + s.pick(0, 16)),
        Kind::Dlsl(s) => Some(0x64 + s.pick(0, 16)),
        Kind::Dlsr(s) => Some(0x65 + s.pick(0, 16)),
        Kind::Csl(s) => Some(0x68 + s.pick(0, 16)),
        Kind::Seb => Some(0x6a),
        Kind::Seh => Some(0x7a),
        Kind::Branch(Relation::Less | Relation::GreaterOrEqual, Second::Register) => None,
        Kind::Branch(r, s) => Some(0x80 + relation_column(r) + s.pick(0, 4)),
        Kind::Jump => Some(0x8b),
        Kind::Call => Some(0x83),
        Kind::Loop => Some(0x87),
        Kind::Store(w, i) => Some(0xa0 + width_column(w, i)),
        Kind::Load(Side::Data, w, i) => Some(0xc0 + width_column(w, i)),
        Kind::Load(Side::Code, w, i) => Some(0xe0 + width_column(w, i)),
        Kind::Laddr(Side::Data, i) => Some(0xce + i as u8),
        Kind::Laddr(Side::Code, i) => Some(0xee + i as u8),
    }
}

impl Instruction {
    // The bytes that spell the instruction, or none where no bytes do: a kind that the map lacks, a size that is
    // not the format's, or a field or a displacement that does not fit.
    #[tactic(auto, using(crate::proofs::Spelled::unmapped, crate::proofs::Spelled::fits))]
    pub fn encode(self) -> Option<Encoding>
        ensures { Encodes self result }
    {
        let i = self;
        let op = opcode(i.kind)?;
        if i.x > 15 || i.y > 15 {
            return None;
        }
        let xy = i.x * 16 + i.y;
        let [a, b, c, d] = i.displacement.to_be_bytes();
        match i.size {
            2 if op < 0x80 && i.displacement == 0 => Some(Encoding {
                bytes: [op, xy, 0, 0, 0, 0],
                size: 2,
            }),
            4 if op >= 0x80 && short_displacement(c, d) == i.displacement => Some(Encoding {
                bytes: [op, xy, c, d, 0, 0],
                size: 4,
            }),
            6 if op >= 0x80 => Some(Encoding {
                bytes: [op + 16, xy, a, b, c, d],
                size: 6,
            }),
            _ => None,
        }
    }
}
