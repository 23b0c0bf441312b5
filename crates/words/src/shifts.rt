// Shifts of a word, by the low five bits of a count.
ghost use Rattle.std.specs.Prelude.{◌≡◌, ◌-◌, ◌%◌, ◌^◌};
ghost use Rattle.words.specs.Shifts.{Floored, circled, down, left, right};
ghost use Rattle.words.specs.Wholes.{low, signed};

use super::wholes::{whole, word};

// A left shift is the same for words with and without a sign.
pub fn shift_left(a: u32, count: u32) -> u32
    ensures { result ≡ left 32 a (count % 32) }
{
    a << (count % 32)
}

pub fn shift_right(a: u32, count: u32) -> u32
    ensures { result ≡ right a (count % 32) }
{
    a >> (count % 32)
}

// Copies of the sign bit come in at the front.
pub fn shift_right_arithmetic(a: u32, count: u32) -> u32
    ensures value { result ≡ low 32 (down (signed 32 a) (count % 32)) }
    ensures floored { Floored (signed 32 a) (2 ^ (count % 32)) (signed 32 result) }
{
    word(whole(a) >> (count % 32))
}

// Bits that leave at the front come in at the back.
#[tactic(auto, using(crate::proofs::Turned::turned, crate::proofs::Turned::turned_back))]
pub fn rotate_left(a: u32, count: u32) -> u32
    ensures value { result ≡ circled a count }
    ensures back { circled result (32 - count % 32) ≡ a }
{
    a.rotate_left(count)
}
