// Writes the sample image to standard output: the shrinkage program of docs/shrinkage.md.
#![tactic(auto)]

use anyhow::Context;
use image::{Admission, Fill, Grant, Put, Record, Run, write};
use isa::{Indexing, Instruction, Kind, Second, Side, Width};
use std::alloc::{AllocError, Global};
use std::io::Write;

// Traps on integer overflow and on a zero divisor.
const TRAPS: u32 = 0x0000_c000;

// An instruction with a short displacement.
fn short(kind: Kind, x: u8, y: u8, displacement: u32) -> Instruction {
    Instruction {
        kind,
        size: 4,
        x,
        y,
        displacement,
    }
}

// An instruction of two registers.
fn pair(kind: Kind, x: u8, y: u8) -> Instruction {
    Instruction {
        size: 2,
        ..short(kind, x, y, 0)
    }
}

// Each pattern dimension is fired dimension × 10,000 ÷ (10,000 − shrinkage).
fn program() -> [Instruction; 11] {
    let laddr = Kind::Laddr(Side::Data, Indexing::Direct);
    let load = Kind::Load(Side::Data, Width::Word, Indexing::Direct);
    let load_indexed = Kind::Load(Side::Data, Width::Word, Indexing::Indexed);
    let store_indexed = Kind::Store(Width::Word, Indexing::Indexed);
    [
        short(laddr, 1, 0, 10_000),
        short(load, 2, 0, 0),
        pair(Kind::Move(Second::Register), 3, 1),
        pair(Kind::Sub(Second::Register), 3, 2),
        short(laddr, 4, 0, 0xffff_fff0),
        short(load_indexed, 5, 4, 32),
        pair(Kind::Mpy(Second::Register), 5, 1),
        pair(Kind::Div, 5, 3),
        short(store_indexed, 5, 4, 80),
        short(Kind::Loop, 4, 4, 0xffff_fff4),
        pair(Kind::Kcall, 0, 0),
    ]
}

// The bytes of the program.
fn assemble(heap: Global) -> anyhow::Result<Vec<u8>> {
    let mut code = Vec::new(heap);
    for instruction in program() {
        let encoding = instruction
            .encode()
            .context("an instruction does not fit its format")?;
        code.extend_from_slice(encoding.as_slice())?;
    }
    Ok(code)
}

// The fired dimensions, in hundredths of a millimetre.
fn fired(heap: Global) -> Result<Vec<u8>, AllocError> {
    let mut bytes = Vec::new(heap);
    for dimension in [12_000u32, 8_550, 3_025, 640] {
        bytes.extend_from_slice(&dimension.to_be_bytes())?;
    }
    Ok(bytes)
}

// Bytes for frame k of process 0.
fn fill(k: u16, offset: u16, bytes: &[u8]) -> Record<'_> {
    Record::Fill(Fill {
        p: 0,
        k,
        offset,
        bytes,
    })
}

// The image: a code page, a data page with the shrinkage and the fired dimensions, and one run.
fn image<'a>(
    heap: Global,
    code: &'a [u8],
    shrinkage: &'a [u8],
    fired: &'a [u8],
) -> Option<Vec<u8>> {
    let both = Admission {
        p: 0,
        first: 0,
        count: 2,
    };
    let code_page = Grant {
        p: 0,
        side: Side::Code,
        page: 0,
        k: 0,
    };
    let data_page = Grant {
        p: 0,
        side: Side::Data,
        page: 0,
        k: 1,
    };
    let traps = Put {
        p: 0,
        r: 17,
        value: TRAPS,
    };
    let run = Run { p: 0, n: 1_000 };
    let records = [
        Record::Admit(both),
        Record::Grant(code_page),
        Record::Grant(data_page),
        fill(0, 0, code),
        fill(1, 0, shrinkage),
        fill(1, 16, fired),
        Record::Put(traps),
        Record::Run(run),
    ];
    write(heap, &records).ok()
}

fn run(rt: &HostRuntime) -> anyhow::Result<()> {
    let heap = rt.alloc();
    let code = assemble(heap)?;
    let shrinkage = 1_150u32.to_be_bytes();
    let fired = fired(heap)?;
    let bytes = image(heap, &code, &shrinkage, &fired).context("the image cannot be written")?;
    rt.stdout().write_all(&bytes)?;
    Ok(())
}

fn main(rt: HostRuntime) -> anyhow::Result<()> {
    run(&rt)
}
