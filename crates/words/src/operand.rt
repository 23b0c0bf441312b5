// The second operand of an instruction: the word of a register, or the field of an immediate form.
ghost use Rattle.std.specs.Prelude.{◌≡◌, ℕ, ℤ, pos};
ghost use Rattle.words.specs.Wholes.{Within, signed};

use super::wholes::whole;

pub trait Operand: Copy {
    // The word that it is, bit by bit.
    ghost word_of: { Self → ℕ };

    // The whole number that it stands for.
    ghost value_of: { Self → ℤ };

    fn word(self) -> u32
        ensures { result ≡ word_of self };

    fn whole(self) -> i64
        ensures value { result ≡ value_of self }
        ensures within { Within 32 result };
}

// The word of a register has a sign.
impl Operand for u32 {
    ghost word_of = { λ a. a };

    ghost value_of = { λ a. signed 32 a };

    fn word(self) -> u32 {
        self
    }

    fn whole(self) -> i64 {
        whole(self)
    }
}

// The four-bit field of an instruction, a number that has no sign.
#[derive(Clone, Copy, PartialEq, Eq, Debug)]
pub struct Field(pub u8);

impl Operand for Field {
    ghost word_of = { λ field. field.0 };

    ghost value_of = { λ field. pos field.0 };

    fn word(self) -> u32 {
        u32::from(self.0)
    }

    fn whole(self) -> i64 {
        i64::from(self.0)
    }
}
