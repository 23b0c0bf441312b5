// The rules that a list of records keeps if it has an image.
ghost use Rattle.std.specs.Prelude.{◌≡◌, ◌+◌, ◌-◌, ◌^◌, ◌≤◌, ◌↔◌, All, IsTrue, length, min, MatchResult};
ghost use Rattle.image.specs.Format.{written, among, Ordered};
ghost use Rattle.image.specs.Writing.{total, Counted, Short, Writable, Broken};

use super::errors::WriteError;
use super::records::{LARGEST, LIMIT, Record, SECTIONS, Section};

// The bytes that the five counts of an image take.
const COUNTS: usize = 10;

// Whether the records follow the order of the sections.
fn in_order(records: &[Record]) -> bool
    ensures { IsTrue result ↔ Ordered records.now }
{
    records.is_sorted_by(|a, b| a.section() <= b.section())
}

// How many records belong to a section. The sum may wrap by its type, so that the compiler adds up several records at
// a time; no slice is so long that it does.
pub fn count(section: Section, records: &[Record]) -> usize
    ensures { result ≡ length (among section records.now) }
{
    records.iter().fold(0, |n: usize, record| {
        n.wrapping_add(usize::from(record.section() == section))
    })
}

// Whether no section has too many records. None has where all together are no more than one may have.
fn counts_fit(records: &[Record]) -> bool
    ensures { IsTrue result ↔ Counted records.now }
{
    records.len() <= LARGEST
        || SECTIONS
            .iter()
            .all(|section| count(*section, records) <= LARGEST)
}

// Whether no fill has too many bytes.
fn fills_fit(records: &[Record]) -> bool
    ensures { IsTrue result ↔ All Short records.now }
{
    records.iter().all(Record::is_short)
}

// How many bytes the counts and the records take together, or the most that a size can be.
fn size(records: &[Record]) -> usize
    ensures { result ≡ min (10 + total records.now) (2 ^ 64 - 1) }
{
    records
        .iter()
        .fold(COUNTS, |size, record| size.saturating_add(record.size()))
}

// The first rule that the records break.
pub fn check(records: &[Record]) -> Result<(), WriteError>
    ensures { MatchResult result (λ _. Writable records.now) (Broken records.now) }
{
    if !in_order(records) {
        return Err(WriteError::OutOfOrder);
    }
    if !counts_fit(records) {
        return Err(WriteError::TooManyRecords);
    }
    if !fills_fit(records) {
        return Err(WriteError::FillTooLong);
    }
    if size(records) > LIMIT {
        return Err(WriteError::ImageTooLong);
    }
    Ok(())
}
