// The text of an instruction: its mnemonic and its operands, as docs/processor.md writes them.
#![tactic(auto)]

ghost use Rattle.std.specs.Prelude.{◌≡◌, ◌+◌, ◌*◌, Some};
ghost use Rattle.std.specs.Fmt.{signed_decimal};
ghost use Rattle.std.specs.Int.{cast_signed, w32};
ghost use Rattle.disasm.specs.Text.{address, distance, mnemonic, operand, sign, text};

use isa::{Indexing, Instruction, Kind, Relation, Second, Shape, Side, Width};
use std::fmt;

// The mnemonic of a kind: I marks an immediate form, P an operand on the code side.
fn name(kind: Kind) -> &'static str
    ensures { result.now ≡ mnemonic kind }
{
    match kind {
        Kind::Move(s) => s.pick("MOVE", "MOVEI"),
        Kind::Neg => "NEG",
        Kind::Add(s) => s.pick("ADD", "ADDI"),
        Kind::Sub(s) => s.pick("SUB", "SUBI"),
        Kind::Mpy(s) => s.pick("MPY", "MPYI"),
        Kind::Div => "DIV",
        Kind::Rem => "REM",
        Kind::Not(s) => s.pick("NOT", "NOTI"),
        Kind::Or => "OR",
        Kind::Xor => "XOR",
        Kind::And(s) => s.pick("AND", "ANDI"),
        Kind::Cbit => "CBIT",
        Kind::Sbit => "SBIT",
        Kind::Tbit => "TBIT",
        Kind::Chk(s) => s.pick("CHK", "CHKI"),
        Kind::Nop => "NOP",
        Kind::Lcomp => "LCOMP",
        Kind::Dcomp => "DCOMP",
        Kind::Trap => "TRAP",
        Kind::Test(_, s) => s.pick("TEST", "TESTI"),
        Kind::Callr => "CALLR",
        Kind::Ret => "RET",
        Kind::Kcall => "KCALL",
        Kind::Lsl(s) => s.pick("LSL", "LSLI"),
        Kind::Lsr(s) => s.pick("LSR", "LSRI"),
        Kind::Asl(s) => s.pick("ASL", "ASLI"),
        Kind::Asr(s) => s.pick("ASR", "ASRI"),
        Kind::Dlsl(s) => s.pick("DLSL", "DLSLI"),
        Kind::Dlsr(s) => s.pick("DLSR", "DLSRI"),
        Kind::Csl(s) => s.pick("CSL", "CSLI"),
        Kind::Seb => "SEB",
        Kind::Seh => "SEH",
        Kind::Branch(_, _) => "BR",
        Kind::Jump => "BR",
        Kind::Call => "CALL",
        Kind::Loop => "LOOP",
        Kind::Store(w, _) => w.pick("STOREB", "STOREH", "STORE", "STORED"),
        Kind::Load(Side::Data, w, _) => w.pick("LOADB", "LOADH", "LOAD", "LOADD"),
        Kind::Load(Side::Code, w, _) => w.pick("LOADBP", "LOADHP", "LOADP", "LOADDP"),
        Kind::Laddr(Side::Data, _) => "LADDR",
        Kind::Laddr(Side::Code, _) => "LADDRP",
    }
}

// The number that both fields make together.
fn entry(x: u8, y: u8) -> u16
    ensures { result ≡ x * 16 + y }
{
    u16::from(x) * 16 + u16::from(y)
}

// What the Ry field gives: a register or a number.
#[derive(Clone, Copy)]
struct Operand {
    second: Second,
    y: u8,
}

impl fmt::Display for Operand {
    ghost output = { λ o. Some (operand o.second o.y) };

    fn fmt<W: fmt::Write>(&self, f: &mut fmt::Formatter<W>) -> fmt::Result {
        let y = self.y;
        match self.second {
            Second::Register => write!(f, "R{y}"),
            Second::Field => write!(f, "{y}"),
        }
    }
}

// A displacement is written as a signed number.
fn signed(displacement: u32) -> i32
    ensures value { result ≡ cast_signed w32 displacement }
    ensures text { signed_decimal result ≡ distance displacement }
{
    displacement.cast_signed()
}

// The address of an operand in memory.
#[derive(Clone, Copy)]
struct Address {
    indexing: Indexing,
    y: u8,
    displacement: u32,
}

impl fmt::Display for Address {
    ghost output = { λ a. Some (address a.indexing a.y a.displacement) };

    fn fmt<W: fmt::Write>(&self, f: &mut fmt::Formatter<W>) -> fmt::Result {
        let y = self.y;
        let distance = signed(self.displacement);
        match self.indexing {
            Indexing::Direct => write!(f, "{distance}"),
            Indexing::Indexed if distance < 0 => write!(f, "R{y} - {}", distance.unsigned_abs()),
            Indexing::Indexed => write!(f, "R{y} + {distance}"),
        }
    }
}

// A relation, by its sign.
#[derive(Clone, Copy)]
struct Sign(Relation);

impl fmt::Display for Sign {
    ghost output = { λ r. Some (sign r.0) };

    fn fmt<W: fmt::Write>(&self, f: &mut fmt::Formatter<W>) -> fmt::Result {
        f.write_str(match self.0 {
            Relation::Greater => ">",
            Relation::Less => "<",
            Relation::Equal => "=",
            Relation::LessOrEqual => "<=",
            Relation::GreaterOrEqual => ">=",
            Relation::NotEqual => "<>",
        })
    }
}

// An instruction to be shown.
#[derive(Clone, Copy, PartialEq, Eq, Debug)]
pub struct Text(pub Instruction);

impl fmt::Display for Text {
    ghost output = { λ t. Some (text t.0) };

    fn fmt<W: fmt::Write>(&self, f: &mut fmt::Formatter<W>) -> fmt::Result {
        let i = self.0;
        let name = name(i.kind);
        let x = i.x;
        let y = i.y;
        let target = signed(i.displacement);
        match i.kind.shape() {
            Shape::Bare => write!(f, "{name}"),
            Shape::Number => write!(f, "{name} {y}"),
            Shape::Entry => write!(f, "{name} {}", entry(x, y)),
            Shape::Pair(second) => write!(f, "{name} R{x}, {}", Operand { second, y }),
            Shape::Compare(r, second) => write!(
                f,
                "{name} R{x} {} {}",
                Sign(r),
                Operand { second, y }
            ),
            Shape::Branch(r, second) => {
                write!(
                    f,
                    "{name} R{x} {} {}, {target}",
                    Sign(r),
                    Operand { second, y }
                )
            }
            Shape::Jump => write!(f, "{name} {target}"),
            Shape::Call => write!(f, "{name} R{x}, {target}"),
            Shape::Loop => write!(f, "{name} R{x}, {y}, {target}"),
            Shape::Memory(indexing) => {
                let displacement = i.displacement;
                write!(
                    f,
                    "{name} R{x}, {}",
                    Address {
                        indexing,
                        y,
                        displacement
                    }
                )
            }
        }
    }
}
