// The arithmetic of the instructions: total functions on words of 32 bits and pairs of 64.
#![tactic(auto)]

mod addresses;
mod arithmetic;
mod division;
mod extension;
mod logic;
mod operand;
mod orders;
mod pairs;
mod relations;
mod shifts;
mod wholes;

pub use addresses::{address, even, sum, target};
pub use arithmetic::{Kept, add, multiply, negate, subtract};
pub use division::{divide, remainder};
pub use extension::{Narrow, extend};
pub use logic::{and, complement, exclusive_or, or};
pub use operand::{Field, Operand};
pub use orders::compare_unsigned;
pub use pairs::Pair;
pub use relations::Relation;
pub use shifts::{rotate_left, shift_left, shift_right, shift_right_arithmetic};
pub use wholes::{whole, word};
