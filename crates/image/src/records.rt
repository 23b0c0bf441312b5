// The records of a start image.
ghost use Rattle.std.specs.Prelude.{◌≡◌, ◌↔◌, IsTrue, length};
ghost use Rattle.image.specs.Format.{section_of, written};
ghost use Rattle.image.specs.Writing.{Short};

use isa::Side;

// An image has at most this many bytes.
pub const LIMIT: usize = 16_384;

// The largest count of a section, and the largest length of a fill.
pub(crate) const LARGEST: usize = 65_535;

// The number of the refusal of an image that cannot be read.
pub const REFUSAL: u8 = 16;

// Process p comes in, with `count` frames from frame `first` on.
#[derive(Clone, Copy, PartialEq, Eq, Debug)]
pub struct Admission {
    pub p: u16,
    pub first: u16,
    pub count: u16,
}

// A page of one side of process p is bound to its frame k.
#[derive(Clone, Copy, PartialEq, Eq, Debug)]
pub struct Grant {
    pub p: u16,
    pub side: Side,
    pub page: u32,
    pub k: u16,
}

// Bytes are written into frame k of process p, from `offset` on.
#[derive(Clone, Copy, PartialEq, Eq, Debug)]
pub struct Fill<'a> {
    pub p: u16,
    pub k: u16,
    pub offset: u16,
    pub bytes: &'a [u8],
}

// A value is put into register r of process p.
#[derive(Clone, Copy, PartialEq, Eq, Debug)]
pub struct Put {
    pub p: u16,
    pub r: u16,
    pub value: u32,
}

// Process p runs for at most n steps.
#[derive(Clone, Copy, PartialEq, Eq, Debug)]
pub struct Run {
    pub p: u16,
    pub n: u32,
}

#[derive(Clone, Copy, PartialEq, Eq, Debug)]
pub enum Record<'a> {
    Admit(Admission),
    Grant(Grant),
    Fill(Fill<'a>),
    Put(Put),
    Run(Run),
}

// A record, and the offset in its image at which it is written.
#[derive(Clone, Copy, PartialEq, Eq, Debug)]
pub struct Placed<'a> {
    pub offset: usize,
    pub record: Record<'a>,
}

// The sections of an image, in their order.
#[derive(Clone, Copy, PartialEq, Eq, PartialOrd, Ord, Debug)]
pub enum Section {
    Admissions,
    Grants,
    Fills,
    Puts,
    Runs,
}

pub const SECTIONS: [Section; 5] = [
    Section::Admissions,
    Section::Grants,
    Section::Fills,
    Section::Puts,
    Section::Runs,
];

impl Record<'_> {
    // The section that the record belongs to.
    pub fn section(&self) -> Section
        ensures { result ≡ section_of self.now }
    {
        match self {
            Record::Admit(_) => Section::Admissions,
            Record::Grant(_) => Section::Grants,
            Record::Fill(_) => Section::Fills,
            Record::Put(_) => Section::Puts,
            Record::Run(_) => Section::Runs,
        }
    }

    // How many bytes the record is written in.
    pub(crate) fn size(&self) -> usize
        ensures { result ≡ length (written self.now) }
    {
        match self {
            Record::Admit(_) => 6,
            Record::Grant(_) => 10,
            Record::Fill(fill) => 8 + fill.bytes.len(),
            Record::Put(_) => 8,
            Record::Run(_) => 6,
        }
    }

    // Whether the record is no fill of too many bytes.
    pub(crate) fn is_short(&self) -> bool
        ensures { IsTrue result ↔ Short self.now }
    {
        match self {
            Record::Fill(fill) => fill.bytes.len() <= LARGEST,
            _ => true,
        }
    }
}
