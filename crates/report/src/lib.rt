// What an image will do, as text: its records, and the instructions that it fills in.
#![tactic(auto)]

mod errors;
mod lines;
mod listing;
mod parts;

pub use errors::OutOfMemory;
pub use listing::list;
