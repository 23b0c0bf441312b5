// Sign extension.
ghost use Rattle.std.specs.Prelude.{◌≡◌, ℕ, ◌%◌, ◌^◌, ◌<◌};
ghost use Rattle.words.specs.Extension.{Extends};
ghost use Rattle.words.specs.Wholes.{signed};

use super::wholes::word;

// A signed number that the last bits of a word may be.
pub trait Narrow {
    ghost bits: { ℕ };

    // The value of the last bits of a word.
    fn low_value(a: u32) -> i64
        ensures { result ≡ signed bits (a % 2 ^ bits) };

    ghost positive: { 0 < bits };

    ghost narrower: { bits < 32 };
}

impl Narrow for i8 {
    ghost use Rattle.std.proofs.Common.{lit≤};

    ghost bits = { 8 };

    ghost positive = { lit≤ tt };

    ghost narrower = { lit≤ tt };

    #[tactic(auto, using(crate::proofs::Signs::signed_8))]
    fn low_value(a: u32) -> i64 {
        let byte = (a % 0x100) as u8;
        i64::from(byte.cast_signed())
    }
}

impl Narrow for i16 {
    ghost use Rattle.std.proofs.Common.{lit≤};

    ghost bits = { 16 };

    ghost positive = { lit≤ tt };

    ghost narrower = { lit≤ tt };

    #[tactic(auto, using(crate::proofs::Signs::signed_16))]
    fn low_value(a: u32) -> i64 {
        let half = (a % 0x1_0000) as u16;
        i64::from(half.cast_signed())
    }
}

// The last bits of a word with their sign: `extend::<i8>(a)` takes a byte, `extend::<i16>(a)` a halfword.
pub fn extend<T: Narrow>(a: u32) -> u32
    ensures { Extends T.bits a result }
{
    word(T::low_value(a))
}
