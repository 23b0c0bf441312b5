// Logic, bit by bit. A field is a word whose other bits are 0.
ghost use Rattle.std.specs.Prelude.{◌≡◌, ◌+◌, ◌-◌, ◌%◌, ◌^◌, min, max, bit_and, bit_or, bit_xor};
ghost use Rattle.words.specs.Bits.{Combined, Flipped};

use super::operand::Operand;

#[tactic(auto, using(crate::proofs::Bitwise::and_bits))]
pub fn and<T: Operand>(a: u32, b: T) -> u32
    ensures value { result ≡ bit_and a (T.word_of b) }
    ensures bits { Combined min a (T.word_of b) result }
{
    a & b.word()
}

#[tactic(auto, using(crate::proofs::Bitwise::or_bits))]
pub fn or(a: u32, b: u32) -> u32
    ensures value { result ≡ bit_or a b }
    ensures bits { Combined max a b result }
{
    a | b
}

#[tactic(auto, using(crate::proofs::Bitwise::xor_bits))]
pub fn exclusive_or(a: u32, b: u32) -> u32
    ensures value { result ≡ bit_xor a b }
    ensures bits { Combined (λ x y. (x + y) % 2) a b result }
{
    a ^ b
}

#[tactic(auto, using(crate::proofs::Bitwise::flip_bits))]
pub fn complement<T: Operand>(a: T) -> u32
    ensures value { result ≡ 2 ^ 32 - 1 - T.word_of a }
    ensures bits { Flipped (T.word_of a) result }
{
    !a.word()
}
