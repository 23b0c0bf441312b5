// What some bytes begin with. The five functions for a record have one contract: the record and the bytes
// after it, or that no record of the section begins here. Each matches the named first bytes of its layout.
ghost use Rattle.std.specs.Prelude.{◌≡◌, ◌<◌, ◌++◌, length, MatchOption};
ghost use Rattle.image.specs.Format.{half};
ghost use Rattle.image.specs.Reading.{Taken};
ghost use Rattle.image.specs.declared.records.Section.TheVariants.{Admissions, Grants, Fills, Puts, Runs};

use super::records::{Admission, Fill, Grant, Put, Record, Run, Section};
use isa::Side;

// The count at the front of a section.
pub fn count(bytes: &[u8]) -> Option<(u16, &[u8])>
    ensures { MatchOption result (length bytes.now < 2) (λ x. bytes.now ≡ half x.0 ++ x.1.now) }
{
    let [c0, c1, rest @ ..] = bytes else {
        return None;
    };
    Some((u16::from_be_bytes([*c0, *c1]), rest))
}

fn admission(bytes: &[u8]) -> Option<(Record<'_>, &[u8])>
    ensures { Taken Admissions bytes.now result }
{
    let [p0, p1, f0, f1, c0, c1, rest @ ..] = bytes else {
        return None;
    };
    let admission = Admission {
        p: u16::from_be_bytes([*p0, *p1]),
        first: u16::from_be_bytes([*f0, *f1]),
        count: u16::from_be_bytes([*c0, *c1]),
    };
    Some((Record::Admit(admission), rest))
}

fn grant(bytes: &[u8]) -> Option<(Record<'_>, &[u8])>
    ensures { Taken Grants bytes.now result }
{
    let [p0, p1, s0, s1, g0, g1, g2, g3, k0, k1, rest @ ..] = bytes else {
        return None;
    };
    let side = Side::try_from(u16::from_be_bytes([*s0, *s1])).ok()?;
    let grant = Grant {
        p: u16::from_be_bytes([*p0, *p1]),
        side,
        page: u32::from_be_bytes([*g0, *g1, *g2, *g3]),
        k: u16::from_be_bytes([*k0, *k1]),
    };
    Some((Record::Grant(grant), rest))
}

fn fill(bytes: &[u8]) -> Option<(Record<'_>, &[u8])>
    ensures { Taken Fills bytes.now result }
{
    let [p0, p1, k0, k1, o0, o1, n0, n1, rest @ ..] = bytes else {
        return None;
    };
    let length = usize::from(u16::from_be_bytes([*n0, *n1]));
    if rest.len() < length {
        return None;
    }
    let (bytes, rest) = rest.split_at(length);
    let fill = Fill {
        p: u16::from_be_bytes([*p0, *p1]),
        k: u16::from_be_bytes([*k0, *k1]),
        offset: u16::from_be_bytes([*o0, *o1]),
        bytes,
    };
    Some((Record::Fill(fill), rest))
}

fn put(bytes: &[u8]) -> Option<(Record<'_>, &[u8])>
    ensures { Taken Puts bytes.now result }
{
    let [p0, p1, r0, r1, v0, v1, v2, v3, rest @ ..] = bytes else {
        return None;
    };
    let put = Put {
        p: u16::from_be_bytes([*p0, *p1]),
        r: u16::from_be_bytes([*r0, *r1]),
        value: u32::from_be_bytes([*v0, *v1, *v2, *v3]),
    };
    Some((Record::Put(put), rest))
}

fn run(bytes: &[u8]) -> Option<(Record<'_>, &[u8])>
    ensures { Taken Runs bytes.now result }
{
    let [p0, p1, n0, n1, n2, n3, rest @ ..] = bytes else {
        return None;
    };
    let run = Run {
        p: u16::from_be_bytes([*p0, *p1]),
        n: u32::from_be_bytes([*n0, *n1, *n2, *n3]),
    };
    Some((Record::Run(run), rest))
}

pub fn record(section: Section, bytes: &[u8]) -> Option<(Record<'_>, &[u8])>
    ensures { Taken section bytes.now result }
{
    match section {
        Section::Admissions => admission(bytes),
        Section::Grants => grant(bytes),
        Section::Fills => fill(bytes),
        Section::Puts => put(bytes),
        Section::Runs => run(bytes),
    }
}
