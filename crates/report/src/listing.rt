// The listing of an image, as one text.
ghost use Rattle.std.specs.Prelude.{◌≡◌, IfOk, string_bytes};
ghost use Rattle.report.specs.Listing.{Adds, CodeAt, Lists, ListsRecords, RecordText, any_grants, count_of, grants_code, total_of};

use super::errors::OutOfMemory;
use super::lines::{RecordLine, Total};
use super::parts::Parts;
use image::{Placed, REFUSAL, ReadError, Record, Section, read};
use isa::Side;
use std::alloc::Global;

// Whether a record grants frame k of process p to its code side.
fn grants(record: Record, p: u16, k: u16) -> bool
    ensures { result ≡ grants_code p k «record».entry }
{
    matches!(record, Record::Grant(g) if g.p == p && g.k == k && g.side == Side::Code)
}

// Whether one of the records does.
fn any_grants(records: &[Placed], p: u16, k: u16) -> bool
    ensures { result ≡ any_grants p k records.now }
{
    records.iter().any(|placed| grants(placed.record, p, k))
}

// How many of the records belong to a section.
fn count(section: Section, records: &[Placed]) -> usize
    ensures { result ≡ count_of section records.now }
{
    records
        .iter()
        .filter(|placed| placed.record.section() == section)
        .count()
}

// How many records each section has.
fn total(records: &[Placed]) -> Total
    ensures { result ≡ total_of records.now }
{
    Total {
        admissions: count(Section::Admissions, records),
        grants: count(Section::Grants, records),
        fills: count(Section::Fills, records),
        puts: count(Section::Puts, records),
        runs: count(Section::Runs, records),
    }
}

// Adds the lines of the parts of some bytes.
fn list_code(out: &mut String, offset: u16, bytes: &[u8]) -> Result<(), OutOfMemory>
    ensures { Adds (string_bytes out.old) (string_bytes out.new) (CodeAt offset bytes.now) result }
{
    for part in Parts::new(offset, bytes) {
        writeln!(out, "{part}")?;
    }
    Ok(())
}

// Adds the line of a record, and for a fill into a code frame the lines of its instructions.
fn list_record(out: &mut String, all: &[Placed], placed: Placed) -> Result<(), OutOfMemory>
    ensures { Adds (string_bytes out.old) (string_bytes out.new) (RecordText all.now placed.entry) result }
{
    writeln!(out, "{}", RecordLine(placed))?;
    match placed.record {
        Record::Fill(fill) if any_grants(all, fill.p, fill.k) => {
            list_code(out, fill.offset, fill.bytes)
        }
        _ => Ok(()),
    }
}

// The listing of an image that can be read.
fn list_records(heap: Global, records: &[Placed]) -> Result<String, OutOfMemory>
    ensures { IfOk result (λ s. ListsRecords records.now (string_bytes s)) }
{
    let mut out = String::new(heap);
    for placed in records {
        list_record(&mut out, records, *placed)?;
    }
    writeln!(out, "{}", total(records))?;
    Ok(out)
}

// The listing of an image: a line for each record with the instructions that it fills in, and a total;
// of an image that cannot be read, one line with the offset.
pub fn list(heap: Global, bytes: &[u8]) -> Result<String, OutOfMemory>
    ensures { IfOk result (λ s. Lists bytes.now (string_bytes s)) }
{
    match read(heap, bytes) {
        Ok(records) => list_records(heap, &records),
        Err(ReadError::Unreadable(offset)) => Ok(format!(in heap; "bad {REFUSAL} {offset}\n")?),
        Err(ReadError::Memory) => Err(OutOfMemory),
    }
}
