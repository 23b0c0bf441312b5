// The shape of each kind of instruction.
ghost use Rattle.std.specs.Prelude.{◌≡◌};
ghost use Rattle.isa.specs.Formats.{shape_of};

use super::kinds::{Kind, Second, Shape};

impl Kind {
    pub fn shape(self) -> Shape
        ensures { result ≡ shape_of self }
    {
        match self {
            Kind::Nop => Shape::Bare,
            Kind::Trap => Shape::Number,
            Kind::Kcall => Shape::Entry,
            Kind::Move(s) | Kind::Add(s) | Kind::Sub(s) | Kind::Mpy(s) => Shape::Pair(s),
            Kind::Not(s) | Kind::And(s) | Kind::Chk(s) => Shape::Pair(s),
            Kind::Lsl(s) | Kind::Lsr(s) | Kind::Asl(s) | Kind::Asr(s) => Shape::Pair(s),
            Kind::Dlsl(s) | Kind::Dlsr(s) | Kind::Csl(s) => Shape::Pair(s),
            Kind::Test(r, s) => Shape::Compare(r, s),
            Kind::Branch(r, s) => Shape::Branch(r, s),
            Kind::Jump => Shape::Jump,
            Kind::Call => Shape::Call,
            Kind::Loop => Shape::Loop,
            Kind::Store(_, i) | Kind::Load(_, _, i) | Kind::Laddr(_, i) => Shape::Memory(i),
            Kind::Neg
            | Kind::Div
            | Kind::Rem
            | Kind::Or
            | Kind::Xor
            | Kind::Cbit
            | Kind::Sbit
            | Kind::Tbit
            | Kind::Lcomp
            | Kind::Dcomp
            | Kind::Callr
            | Kind::Ret
            | Kind::Seb
            | Kind::Seh => Shape::Pair(Second::Register),
        }
    }
}
