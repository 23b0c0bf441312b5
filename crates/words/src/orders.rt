// Comparisons that answer -1, 0 or 1 as a word.
ghost use Rattle.std.specs.Prelude.{◌≡◌};
ghost use Rattle.words.specs.Orders.{TotalOrder, Word, compared, lcomp};
ghost use Rattle.words.specs.Wholes.{low};

use std::cmp::Ordering;

// FFFFFFFFh, 0 or 1 as one number is below, equal to or above another.
#[tactic(auto, using(crate::proofs::Ranks::is_below, crate::proofs::Ranks::is_above, crate::proofs::Ranks::is_same))]
pub(crate) fn compare(a: i64, b: i64) -> u32
    ensures { result ≡ low 32 (compared a b) }
{
    match a.cmp(&b) {
        Ordering::Less => 0xffff_ffff,
        Ordering::Equal => 0,
        Ordering::Greater => 1,
    }
}

#[tactic(auto, using(crate::proofs::Ranks::words_ordered))]
pub fn compare_unsigned(a: u32, b: u32) -> u32
    ensures value { result ≡ lcomp a b }
    ensures order { TotalOrder Word lcomp }
{
    compare(i64::from(a), i64::from(b))
}
