// Listings of small images: each content of a code fill, and images that cannot be read.
use super::checks::check;
use image::{Admission, Fill, Grant, Put, Record, Run, write};
use isa::Side;
use report::list;
use std::alloc::Global;
use std::test::Fail;

fn lists(heap: Global, bytes: &[u8], text: &str) -> Result<(), Fail> {
    let listing = list(heap, bytes)?;
    check(listing.as_str() == text, text)
}

// The listing of a code fill alone.
fn code(heap: Global, offset: u16, bytes: &[u8], text: &str) -> Result<(), Fail> {
    let grant = Grant {
        p: 3,
        side: Side::Code,
        page: 7,
        k: 1,
    };
    let fill = Fill {
        p: 3,
        k: 1,
        offset,
        bytes,
    };
    let image = write(heap, &[Record::Grant(grant), Record::Fill(fill)])?;
    lists(heap, &image, text)
}

#[test]
fn an_image_that_cannot_be_read_is_one_line(rt: HostRuntime) -> Result<(), Fail> {
    let heap = rt.alloc();
    lists(heap, &[], "bad 16 0\n")?;
    lists(heap, &[0, 0, 0], "bad 16 2\n")?;
    lists(heap, &[0, 0, 0, 0, 0, 0, 0, 0, 0, 0, 0], "bad 16 10\n")?;
    lists(
        heap,
        &[0, 0, 0, 1, 0, 0, 0, 2, 0, 0, 0, 0, 0, 0, 0, 0, 0, 0, 0, 0],
        "bad 16 4\n",
    )
}

#[test]
fn an_empty_image_is_a_total(rt: HostRuntime) -> Result<(), Fail> {
    let empty = [0, 0, 0, 0, 0, 0, 0, 0, 0, 0];
    lists(
        rt.alloc(),
        &empty,
        "total admissions 0 grants 0 fills 0 puts 0 runs 0\n",
    )
}

#[test]
fn every_record_has_its_line(rt: HostRuntime) -> Result<(), Fail> {
    let heap = rt.alloc();
    let records = [
        Record::Admit(Admission {
            p: 65535,
            first: 1,
            count: 2,
        }),
        Record::Grant(Grant {
            p: 3,
            side: Side::Data,
            page: 4294967295,
            k: 1,
        }),
        Record::Fill(Fill {
            p: 3,
            k: 1,
            offset: 4096,
            bytes: b"",
        }),
        Record::Put(Put {
            p: 3,
            r: 16,
            value: 4294967294,
        }),
        Record::Run(Run { p: 3, n: 1000001 }),
    ];
    let image = write(heap, &records)?;
    let text = "2 admit p 65535 first 1 count 2
10 grant p 3 data page 4294967295 k 1
22 fill p 3 k 1 offset 4096 length 0
32 put p 3 r 16 value 4294967294
42 run p 3 n 1000001
total admissions 1 grants 1 fills 1 puts 1 runs 1
";
    lists(heap, &image, text)
}

#[test]
fn code_at_an_odd_offset(rt: HostRuntime) -> Result<(), Fail> {
    let text = "4 grant p 3 code page 7 k 1
16 fill p 3 k 1 offset 4093 length 3
  4093 ff odd
  4094 1000 NOP
total admissions 0 grants 1 fills 1 puts 0 runs 0
";
    code(rt.alloc(), 4093, &[0xff, 0x10, 0x00], text)
}

#[test]
fn code_that_is_none_and_code_that_is_cut(rt: HostRuntime) -> Result<(), Fail> {
    let text = "4 grant p 3 code page 7 k 1
16 fill p 3 k 1 offset 0 length 10
  0 1234 empty
  2 2312 not carried
  4 4c07 kernel
  6 90120000 cut
total admissions 0 grants 1 fills 1 puts 0 runs 0
";
    code(
        rt.alloc(),
        0,
        &[0x12, 0x34, 0x23, 0x12, 0x4c, 0x07, 0x90, 0x12, 0x00, 0x00],
        text,
    )
}
