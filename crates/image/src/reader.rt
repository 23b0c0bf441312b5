// A reader that goes through an image.
ghost use Rattle.std.specs.Prelude.{◌≤◌, length};

use super::errors::ReadError;
use super::records::{Placed, Record, Section};
use super::take;
use std::alloc::{AllocError, Global};

// Of an image of `size` bytes: the bytes that are still to be read, and the records before them. Once a record is
// lost for want of memory, no more are kept, and reading goes on only to see whether the image is well formed.
#[derive(Drop)]
pub struct Reader<'a> {
    pub size: usize,
    pub rest: &'a [u8],
    pub records: Result<Vec<Placed<'a>>, AllocError>,
    ghost within: { length rest.now ≤ size },
}

impl<'a> Reader<'a> {
    ghost use Rattle.std.specs.Prelude.{◌≡◌, [], ◌∷◌, map};
    ghost use Rattle.image.specs.Format.{written, block};
    ghost use Rattle.image.specs.declared.errors.ReadError.{ReadError};
    ghost use Rattle.image.specs.Reading.{Belong, Began, Stored, Took, offset_of};

    pub fn new(heap: Global, bytes: &'a [u8]) -> Reader<'a>
        ensures { Began bytes.now result }
    {
        Reader {
            size: bytes.len(),
            rest: bytes,
            records: Ok(Vec::new(heap)),
        }
    }

    // Where the bytes that are left begin.
    fn offset(&self) -> usize
        ensures { result ≡ offset_of self.now }
    {
        self.size - self.rest.len()
    }

    // The refusal of an image that cannot be read on from here.
    pub fn unreadable(&self) -> ReadError
        ensures { result ≡ ReadError.Unreadable (offset_of self.now) }
    {
        ReadError::Unreadable(self.offset())
    }

    // Keeps a record that begins here and goes on after it.
    fn keep(&mut self, found: Record<'a>, after: &'a [u8])
        requires { length after.now ≤ length self.old.rest.now }
        ensures kept { Stored self.old self.new (record { offset = offset_of self.old; «record» = found.entry } ∷ []) }
        ensures rest { self.new.rest.now ≡ after.now }
        ensures size { self.new.size ≡ self.old.size }
    {
        let offset = self.offset();
        self.rest = after;
        if let Ok(records) = &mut self.records {
            if let Err(e) = records.push(Placed {
                offset,
                record: found,
            }) {
                self.records = Err(e.into());
            }
        }
    }

    // Takes `count` records of a section.
    fn take_records(&mut self, section: Section, count: u16) -> Result<(), ReadError>
        ensures { Took (λ rs. Belong section rs × (length rs ≡ count)) (map written) 0 self.old self.new result }
    {
        for _ in 0..count {
            let (record, after) = take::record(section, self.rest).ok_or(self.unreadable())?;
            self.keep(record, after);
        }
        Ok(())
    }

    // Takes a whole section, its count and its records.
    pub fn take_section(&mut self, section: Section) -> Result<(), ReadError>
        ensures { Took (Belong section) block 2 self.old self.new result }
    {
        let (count, after) = take::count(self.rest).ok_or(self.unreadable())?;
        self.rest = after;
        self.take_records(section, count)
    }
}
