// The pattern dimension of a fired dimension, step by step in words.
ghost use Rattle.shrinkage.specs.Pattern.{Exact, Pattern};
ghost use Rattle.words.specs.Wholes.{signed};

use std::fmt;
use words::{Kept, divide, multiply, remainder, subtract};

// Shrinkage is counted in parts of this whole.
pub const PARTS: u32 = 10_000;

// The steps whose result may be no signed word.
#[derive(Clone, Copy, PartialEq, Eq, Debug)]
pub enum Step {
    Divisor,
    Product,
    Quotient,
}

impl fmt::Display for Step {
    fn fmt<W: fmt::Write>(&self, f: &mut fmt::Formatter<W>) -> fmt::Result {
        f.write_str(match self {
            Step::Divisor => "divisor",
            Step::Product => "product",
            Step::Quotient => "quotient",
        })
    }
}

// Why there is no pattern dimension.
#[derive(Clone, Copy, PartialEq, Eq, Debug)]
pub enum Fault {
    Overflow(Step),
    ZeroDivisor,
}

impl fmt::Display for Fault {
    fn fmt<W: fmt::Write>(&self, f: &mut fmt::Formatter<W>) -> fmt::Result {
        match self {
            Fault::Overflow(step) => write!(f, "the {step} is no word"),
            Fault::ZeroDivisor => f.write_str("the divisor is zero"),
        }
    }
}

// Every result on the way to a pattern dimension.
#[derive(Clone, Copy, PartialEq, Eq, Debug)]
pub struct Working {
    // 10,000 − shrinkage
    pub divisor: u32,
    // fired dimension × 10,000
    pub product: u32,
    pub pattern: u32,
    // what the division leaves over
    pub over: u32,
}

// The word that was kept, if it is the exact result.
fn exact(kept: Kept, step: Step) -> Result<u32, Fault>
    ensures { Exact kept step result }
{
    if kept.overflow {
        return Err(Fault::Overflow(step));
    }
    Ok(kept.word)
}

pub fn work(fired: u32, shrinkage: u32) -> Result<Working, Fault>
    ensures { Pattern (signed 32 fired) (signed 32 shrinkage) result }
{
    let divisor = exact(subtract(PARTS, shrinkage), Step::Divisor)?;
    let product = exact(multiply(fired, PARTS), Step::Product)?;
    let quotient = divide(product, divisor).ok_or(Fault::ZeroDivisor)?;
    let over = remainder(product, divisor).ok_or(Fault::ZeroDivisor)?;
    let pattern = exact(quotient, Step::Quotient)?;
    Ok(Working {
        divisor,
        product,
        pattern,
        over,
    })
}
