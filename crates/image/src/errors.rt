// Why an image is not read, and why a list of records is not written.
ghost use Rattle.std.specs.Prelude.{◌≡◌};
ghost use Rattle.image.specs.declared.errors.ReadError.{ReadError};
ghost use Rattle.image.specs.declared.errors.WriteError.{WriteError};

use std::alloc::AllocError;

#[derive(Clone, Copy, PartialEq, Eq, Debug)]
pub enum ReadError {
    // Where reading stopped: the start of the part that cannot be completed, or of what follows the last part;
    // `LIMIT` for an image that is too long.
    Unreadable(usize),
    Memory,
}

// The first of these rules that a list of records breaks.
#[derive(Clone, Copy, PartialEq, Eq, Debug)]
pub enum WriteError {
    // The records follow the order of the sections.
    OutOfOrder,
    // A section has at most 65,535 records.
    TooManyRecords,
    // A fill has at most 65,535 bytes.
    FillTooLong,
    // An image has at most `LIMIT` bytes.
    ImageTooLong,
    // No rule is broken, and there is no memory for the image.
    Memory,
}

impl From<AllocError> for ReadError {
    ghost from_gives = { λ _ r. r ≡ ReadError.Memory };

    fn from(_e: AllocError) -> ReadError {
        ReadError::Memory
    }
}

impl From<AllocError> for WriteError {
    ghost from_gives = { λ _ r. r ≡ WriteError.Memory };

    fn from(_e: AllocError) -> WriteError {
        WriteError::Memory
    }
}
