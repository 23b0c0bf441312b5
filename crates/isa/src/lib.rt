// The instructions of the Ridge 32: the opcode table, decoding and encoding.
#![tactic(auto)]

mod decoder;
mod encoder;
mod encoding;
mod kinds;
mod shapes;
mod sides;
mod table;

pub use decoder::decode;
pub use encoding::Encoding;
pub use kinds::{
    Indexing, Instruction, Kind, Opcode, Relation, Second, Shape, Side, Undecoded, Width,
};
pub use sides::NoSide;
pub use table::lookup;
