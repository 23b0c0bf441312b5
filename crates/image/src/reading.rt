// Reading an image into its records.
ghost use Rattle.std.specs.Prelude.{◌≤◌, length, MatchResult};
ghost use Rattle.image.specs.Reading.{Reads, Fails};

use super::errors::ReadError;
use super::reader::Reader;
use super::records::{LIMIT, Placed, SECTIONS};
use std::alloc::Global;

// The records of an image, each with its offset. An image that is not well formed is refused
// whole, and no record of it is handed out; want of memory is told only of an image that is well formed.
pub fn read(heap: Global, bytes: &[u8]) -> Result<Vec<Placed<'_>>, ReadError>
    ensures { MatchResult result (λ v. (length bytes.now ≤ 16384) × Reads bytes.now v.items) (Fails bytes.now) }
{
    if bytes.len() > LIMIT {
        return Err(ReadError::Unreadable(LIMIT));
    }
    let mut reader = Reader::new(heap, bytes);
    for section in SECTIONS {
        reader.take_section(section)?;
    }
    if !reader.rest.is_empty() {
        return Err(reader.unreadable());
    }
    Ok(reader.records?)
}
