// From words to the whole numbers that they stand for, and back.
ghost use Rattle.std.specs.Prelude.{◌≡◌, ◌^◌};
ghost use Rattle.words.specs.Wholes.{low, signed, Modulo, Within};

// The two's complement value of a word.
#[tactic(auto, using(crate::proofs::Signs::signed_32))]
pub fn whole(word: u32) -> i64
    ensures value { result ≡ signed 32 word }
    ensures within { Within 32 result }
{
    i64::from(word.cast_signed())
}

// The low 32 bits of a whole number.
pub fn word(exact: i64) -> u32
    ensures value { result ≡ low 32 exact }
    ensures modulo { Modulo (2 ^ 32) exact result }
{
    (exact.cast_unsigned() % 0x1_0000_0000) as u32
}
