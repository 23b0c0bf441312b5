// Start images: the bytes that set up a machine, read into records and written from them.
#![tactic(auto)]

mod errors;
mod reader;
mod reading;
mod records;
mod rules;
mod take;
mod writing;

pub use errors::{ReadError, WriteError};
pub use reading::read;
pub use records::{Admission, Fill, Grant, LIMIT, Placed, Put, REFUSAL, Record, Run, Section};
pub use writing::write;
