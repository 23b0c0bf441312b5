// Sums, differences and products, by their exact results.
ghost use Rattle.std.specs.Prelude.{◌≡◌, ◌+ℤ◌, ◌-ℤ◌, ◌*ℤ◌, neg_ℤ};
ghost use Rattle.words.specs.Kept.{Keeps};
ghost use Rattle.words.specs.Wholes.{Within, signed};

use super::operand::Operand;
use super::wholes::{whole, word};

// What is kept of an exact result: its low 32 bits, and whether the result is no signed word. The word counts in
// both cases, so the flag stands beside it.
#[derive(Clone, Copy, PartialEq, Eq, Debug)]
pub struct Kept {
    pub word: u32,
    pub overflow: bool,
}

pub(crate) fn keep(exact: i64) -> Kept
    ensures { Keeps exact result }
{
    let word = word(exact);
    Kept {
        word,
        overflow: whole(word) != exact,
    }
}

pub fn add<T: Operand>(a: u32, b: T) -> Kept
    ensures { Keeps (signed 32 a +ℤ T.value_of b) result }
{
    keep(whole(a) + b.whole())
}

pub fn subtract<T: Operand>(a: u32, b: T) -> Kept
    ensures { Keeps (signed 32 a -ℤ T.value_of b) result }
{
    keep(whole(a) - b.whole())
}

// The product of two signed words, which 64 bits hold.
#[tactic(auto, using(crate::proofs::Quotients::products))]
fn product(x: i64, y: i64) -> i64
    requires x_within { Within 32 x }
    requires y_within { Within 32 y }
    ensures { result ≡ x *ℤ y }
{
    x * y
}

pub fn multiply<T: Operand>(a: u32, b: T) -> Kept
    ensures { Keeps (signed 32 a *ℤ T.value_of b) result }
{
    keep(product(whole(a), b.whole()))
}

pub fn negate(a: u32) -> Kept
    ensures { Keeps (neg_ℤ (signed 32 a)) result }
{
    keep(-whole(a))
}
