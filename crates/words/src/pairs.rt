// Register pairs: numbers of 64 bits in two words.
ghost use Rattle.std.specs.Prelude.{◌≡◌, ◌%◌, ◌^◌, ◌<◌};
ghost use Rattle.words.specs.Bits.{Replaced, bit, with_bit};
ghost use Rattle.words.specs.Orders.{Halves, TotalOrder, dcomp};
ghost use Rattle.words.specs.Pairs.{Holds, number_of};
ghost use Rattle.words.specs.Shifts.{left, right};

use super::orders::compare;

// The first register of a pair has the high word.
#[derive(Clone, Copy, PartialEq, Eq, Debug)]
pub struct Pair {
    pub high: u32,
    pub low: u32,
}

impl From<Pair> for u64 {
    ghost from_gives = { λ pair number. number ≡ number_of pair };

    #[tactic(auto, unfolding(crate::specs::Pairs::number_of))]
    fn from(pair: Pair) -> u64 {
        u64::from(pair.high) * 0x1_0000_0000 + u64::from(pair.low)
    }
}

impl From<u64> for Pair {
    ghost from_gives = { λ number pair. Holds number pair };

    #[tactic(auto, unfolding(crate::specs::Pairs::number_of, crate::specs::Pairs::pair_of))]
    fn from(number: u64) -> Pair {
        Pair {
            high: (number / 0x1_0000_0000) as u32,
            low: (number % 0x1_0000_0000) as u32,
        }
    }
}

impl Pair {
    // Shifts go by the low six bits of the count.
    #[tactic(auto, using(crate::proofs::Halved::moved_left))]
    pub fn shift_left(self, count: u32) -> Pair
        ensures shifts { Holds (left 64 (number_of self) (count % 64)) result }
        ensures moves { count % 64 ≡ 32 → result ≡ record { high = self.low; low = 0 } }
    {
        Pair::from(u64::from(self) << (count % 64))
    }

    #[tactic(auto, using(crate::proofs::Halved::moved_right))]
    pub fn shift_right(self, count: u32) -> Pair
        ensures shifts { Holds (right (number_of self) (count % 64)) result }
        ensures moves { count % 64 ≡ 32 → result ≡ record { high = 0; low = self.high } }
    {
        Pair::from(u64::from(self) >> (count % 64))
    }

    // Bits are numbered by the low six bits of the count, the first one the most significant.
    #[tactic(auto, unfolding(crate::specs::Bits::bit))]
    pub fn test_bit(self, count: u32) -> u32
        ensures { result ≡ bit 64 (count % 64) (number_of self) }
    {
        ((u64::from(self) >> (63 - count % 64)) % 2) as u32
    }

    #[tactic(auto, using(crate::proofs::Bitwise::set_is))]
    pub fn set_bit(self, count: u32) -> Pair
        ensures sets { Holds (with_bit 64 (count % 64) 1 (number_of self)) result }
        ensures replaced { Replaced 64 (count % 64) 1 (number_of self) (number_of result) }
    {
        let bit = 1u64 << (63 - count % 64);
        Pair::from(u64::from(self) | bit)
    }

    #[tactic(auto, using(crate::proofs::Bitwise::clear_is))]
    pub fn clear_bit(self, count: u32) -> Pair
        ensures clears { Holds (with_bit 64 (count % 64) 0 (number_of self)) result }
        ensures replaced { Replaced 64 (count % 64) 0 (number_of self) (number_of result) }
    {
        let bit = 1u64 << (63 - count % 64);
        let number = u64::from(self);
        Pair::from(number - (number & bit))
    }

    // Pairs are compared as signed numbers.
    #[tactic(auto, using(crate::proofs::Ranks::pairs_ordered))]
    pub fn compare(self, other: Pair) -> u32
        ensures value { result ≡ dcomp self other }
        ensures order { TotalOrder Halves dcomp }
    {
        let (a, b) = (u64::from(self), u64::from(other));
        compare(a.cast_signed(), b.cast_signed())
    }
}
