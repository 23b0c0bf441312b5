// Writing a list of records as an image.
ghost use Rattle.std.specs.Prelude.{◌≡◌, ◌≤◌, ℕ, List, All, length, MatchResult};
ghost use Rattle.image.specs.Format.{half, word, written, among, flat, block};
ghost use Rattle.image.specs.Writing.{Adds, Short, Broken, Writes};
ghost use Rattle.image.specs.declared.records.Record.TheVariants.{Admit, Grant as GrantOf, Fill as FillOf, Put as PutOf, Run as RunOf};
ghost use Rattle.isa.specs.Sides.{side_number};

use super::errors::WriteError;
use super::records::{Admission, Fill, Grant, Put, Record, Run, SECTIONS, Section};
use super::rules;
use isa::Side;
use std::alloc::{AllocError, Global};

// What has bytes in an image. Numbers have their most significant byte first.
trait Encode: Copy {
    ghost bytes: { Self → List ℕ };

    // Whether its length can be written.
    ghost fits: { Self → Type 0 };

    // Adds the bytes to `out`.
    fn encode(self, out: &mut Vec<u8>) -> Result<(), AllocError>
        requires { fits self }
        ensures { Adds out.old.items out.new.items (bytes self) result };
}

impl Encode for u16 {
    ghost bytes = { half };

    ghost fits = { λ _. Unit {0} };

    fn encode(self, out: &mut Vec<u8>) -> Result<(), AllocError> {
        out.extend_from_slice(&self.to_be_bytes())
    }
}

impl Encode for u32 {
    ghost bytes = { word };

    ghost fits = { λ _. Unit {0} };

    fn encode(self, out: &mut Vec<u8>) -> Result<(), AllocError> {
        out.extend_from_slice(&self.to_be_bytes())
    }
}

impl Encode for Admission {
    ghost bytes = { λ a. written (Admit a) };

    ghost fits = { λ _. Unit {0} };

    fn encode(self, out: &mut Vec<u8>) -> Result<(), AllocError> {
        self.p.encode(out)?;
        self.first.encode(out)?;
        self.count.encode(out)
    }
}

impl Encode for Grant {
    ghost bytes = { λ g. written (GrantOf g) };

    ghost fits = { λ _. Unit {0} };

    fn encode(self, out: &mut Vec<u8>) -> Result<(), AllocError> {
        self.p.encode(out)?;
        self.side.encode(out)?;
        self.page.encode(out)?;
        self.k.encode(out)
    }
}

impl Encode for Side {
    ghost bytes = { λ s. half (side_number s) };

    ghost fits = { λ _. Unit {0} };

    fn encode(self, out: &mut Vec<u8>) -> Result<(), AllocError> {
        u16::from(self).encode(out)
    }
}

impl Encode for Fill<'_> {
    ghost bytes = { λ f. written (FillOf f) };

    ghost fits = { λ f. length f.bytes.now ≤ 65535 };

    fn encode(self, out: &mut Vec<u8>) -> Result<(), AllocError> {
        let length = self.bytes.len() as u16;
        self.p.encode(out)?;
        self.k.encode(out)?;
        self.offset.encode(out)?;
        length.encode(out)?;
        out.extend_from_slice(self.bytes)
    }
}

impl Encode for Put {
    ghost bytes = { λ u. written (PutOf u) };

    ghost fits = { λ _. Unit {0} };

    fn encode(self, out: &mut Vec<u8>) -> Result<(), AllocError> {
        self.p.encode(out)?;
        self.r.encode(out)?;
        self.value.encode(out)
    }
}

impl Encode for Run {
    ghost bytes = { λ e. written (RunOf e) };

    ghost fits = { λ _. Unit {0} };

    fn encode(self, out: &mut Vec<u8>) -> Result<(), AllocError> {
        self.p.encode(out)?;
        self.n.encode(out)
    }
}

impl Encode for Record<'_> {
    ghost bytes = { written };

    ghost fits = { Short };

    fn encode(self, out: &mut Vec<u8>) -> Result<(), AllocError> {
        match self {
            Record::Admit(a) => a.encode(out),
            Record::Grant(g) => g.encode(out),
            Record::Fill(f) => f.encode(out),
            Record::Put(u) => u.encode(out),
            Record::Run(e) => e.encode(out),
        }
    }
}

// Adds a section to `out`: its count, then those records that belong to it.
fn write_section(out: &mut Vec<u8>, section: Section, records: &[Record]) -> Result<(), AllocError>
    requires counted { length (among section records.now) ≤ 65535 }
    requires short { All Short records.now }
    ensures { Adds out.old.items out.new.items (flat (block (among section records.now))) result }
{
    let count = rules::count(section, records) as u16;
    count.encode(out)?;
    for record in records {
        if record.section() == section {
            record.encode(out)?;
        }
    }
    Ok(())
}

// The image of a list of records.
pub fn write(heap: Global, records: &[Record]) -> Result<Vec<u8>, WriteError>
    ensures { MatchResult result (λ v. Writes records.now v.items) (Broken records.now) }
{
    rules::check(records)?;
    let mut out = Vec::new(heap);
    for section in SECTIONS {
        write_section(&mut out, section, records)?;
    }
    Ok(out)
}
