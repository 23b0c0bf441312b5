// Division toward zero and its remainder. A zero divisor has no answer.
ghost use Rattle.std.specs.Prelude.{◌≡◌};
ghost use Rattle.words.specs.Division.{Quotient, Remainder, quotient_of, remainder_of};
ghost use Rattle.words.specs.Wholes.{signed};

use super::arithmetic::{Kept, keep};
use super::wholes::{whole, word};

#[tactic(auto, using(crate::proofs::Quotients::undivided, crate::proofs::Quotients::divisor_counts))]
pub fn divide(a: u32, b: u32) -> Option<Kept>
    ensures value { result ≡ quotient_of a b }
    ensures laws { Quotient a b result }
{
    let quotient = whole(a).checked_div(whole(b))?;
    Some(keep(quotient))
}

#[tactic(auto, using(crate::proofs::Quotients::undivided, crate::proofs::Quotients::divisor_counts))]
pub fn remainder(a: u32, b: u32) -> Option<u32>
    ensures value { result ≡ remainder_of a b }
    ensures laws { Remainder a b result }
{
    let rest = whole(a).checked_rem(whole(b))?;
    Some(word(rest))
}
