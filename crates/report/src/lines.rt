// The lines of a listing.
ghost use Rattle.std.specs.Prelude.{Some};
ghost use Rattle.report.specs.Lines.{code_text, content_text, hexes, record_text, total_text};

use super::parts::{Content, Part};
use disasm::Text;
use image::{Placed, Record};
use std::fmt;

// Bytes in hexadecimal digits, one after another. They are written in pairs, since each number that is written has
// its own cost.
#[derive(Clone, Copy)]
struct Hexes<'a>(&'a [u8]);

impl fmt::Display for Hexes<'_> {
    ghost output = { λ b. Some (hexes b.0.now) };

    fn fmt<W: fmt::Write>(&self, f: &mut fmt::Formatter<W>) -> fmt::Result {
        let (pairs, last) = self.0.as_chunks::<2>();
        for &[a, b] in pairs {
            let pair = u16::from_be_bytes([a, b]);
            write!(f, "{pair:04x}")?;
        }
        for &b in last {
            write!(f, "{b:02x}")?;
        }
        Ok(())
    }
}

// A record of an image: its offset and its fields.
#[derive(Clone, Copy)]
pub struct RecordLine<'a>(pub Placed<'a>);

impl fmt::Display for RecordLine<'_> {
    ghost output = { λ l. Some (record_text l.0) };

    fn fmt<W: fmt::Write>(&self, f: &mut fmt::Formatter<W>) -> fmt::Result {
        let offset = self.0.offset;
        match self.0.record {
            Record::Admit(a) => write!(
                f,
                "{offset} admit p {} first {} count {}",
                a.p, a.first, a.count
            ),
            Record::Grant(g) => write!(
                f,
                "{offset} grant p {} {} page {} k {}",
                g.p, g.side, g.page, g.k
            ),
            Record::Fill(i) => write!(
                f,
                "{offset} fill p {} k {} offset {} length {}",
                i.p,
                i.k,
                i.offset,
                i.bytes.len()
            ),
            Record::Put(u) => write!(f, "{offset} put p {} r {} value {}", u.p, u.r, u.value),
            Record::Run(e) => write!(f, "{offset} run p {} n {}", e.p, e.n),
        }
    }
}

// What the bytes of a part are.
impl fmt::Display for Content {
    ghost output = { λ c. Some (content_text c) };

    fn fmt<W: fmt::Write>(&self, f: &mut fmt::Formatter<W>) -> fmt::Result {
        match *self {
            Content::Carried(i) => write!(f, "{}", Text(i)),
            Content::Empty => write!(f, "empty"),
            Content::NotCarried => write!(f, "not carried"),
            Content::Kernel => write!(f, "kernel"),
            Content::Cut => write!(f, "cut"),
            Content::Odd => write!(f, "odd"),
        }
    }
}

// A part of a code fill: its address, its bytes, and what they are.
impl fmt::Display for Part<'_> {
    ghost output = { λ p. Some (code_text p) };

    fn fmt<W: fmt::Write>(&self, f: &mut fmt::Formatter<W>) -> fmt::Result {
        let address = self.address;
        let bytes = Hexes(self.bytes);
        let content = self.content;
        write!(f, "  {address} {bytes} {content}")
    }
}

// How many records each section of an image has.
#[derive(Clone, Copy)]
pub struct Total {
    pub admissions: usize,
    pub grants: usize,
    pub fills: usize,
    pub puts: usize,
    pub runs: usize,
}

impl fmt::Display for Total {
    ghost output = { λ t. Some (total_text t) };

    fn fmt<W: fmt::Write>(&self, f: &mut fmt::Formatter<W>) -> fmt::Result {
        let Total {
            admissions,
            grants,
            fills,
            puts,
            runs,
        } = *self;
        write!(
            f,
            "total admissions {admissions} grants {grants} fills {fills} puts {puts} runs {runs}"
        )
    }
}
