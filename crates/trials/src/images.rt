// Start images: each kind of record, every cut, the limits, and what is not written.
use image::{
    Admission, Fill, Grant, LIMIT, Placed, Put, ReadError, Record, Run, WriteError, read, write,
};
use isa::Side;
use std::test::Fail;

// An admission, a grant, a fill, a put and a run, a section to a line.
const SAMPLE: &[u8; 50] = b"\
    \x00\x01\x00\x03\x00\x02\x01\x04\
    \x00\x01\x00\x03\x00\x01\x00\x0f\x42\x3f\x00\x09\
    \x00\x01\x00\x03\x00\x09\x0f\xfe\x00\x02\xab\xcd\
    \x00\x01\x00\x03\x00\x10\x00\x01\x00\x02\
    \x00\x01\x00\x03\x00\x0f\x42\x40";

// Where its counts and records begin.
const STARTS: [usize; 10] = [0, 2, 8, 10, 20, 22, 32, 34, 42, 44];

// Its records, and where they begin.
const PLACED: [Placed; 5] = [
    Placed {
        offset: 2,
        record: Record::Admit(Admission {
            p: 3,
            first: 2,
            count: 260,
        }),
    },
    Placed {
        offset: 10,
        record: Record::Grant(Grant {
            p: 3,
            side: Side::Data,
            page: 999_999,
            k: 9,
        }),
    },
    Placed {
        offset: 22,
        record: Record::Fill(Fill {
            p: 3,
            k: 9,
            offset: 4_094,
            bytes: &[171, 205],
        }),
    },
    Placed {
        offset: 34,
        record: Record::Put(Put {
            p: 3,
            r: 16,
            value: 65_538,
        }),
    },
    Placed {
        offset: 44,
        record: Record::Run(Run { p: 3, n: 1_000_000 }),
    },
];

#[test]
fn reads_each_kind(rt: HostRuntime) -> Result<(), Fail> {
    let all = read(rt.alloc(), SAMPLE)?;
    assert!(rt; all.len() == 5);
    for (placed, expected) in all.iter().zip(PLACED.iter()) {
        assert!(rt; placed == expected);
    }
    Ok(())
}

#[test]
fn refuses_each_cut(rt: HostRuntime) {
    let bytes = *SAMPLE;
    for n in 0..bytes.len() {
        let cut = STARTS.into_iter().rfind(|start| *start <= n);
        assert_eq!(rt;
            read(rt.alloc(), &bytes[0..n]).err(),
            cut.map(ReadError::Unreadable)
        );
    }
}

#[test]
fn refuses_a_bad_side_and_a_byte_left_over(rt: HostRuntime) -> Result<(), Fail> {
    for (at, value) in [(12, 1), (13, 2)] {
        let mut bytes = *SAMPLE;
        bytes[at] = value;
        assert_eq!(rt;
            read(rt.alloc(), &bytes).err(),
            Some(ReadError::Unreadable(10))
        );
    }
    let mut bytes = SAMPLE.to_vec(rt.alloc())?;
    bytes.push(0)?;
    assert_eq!(rt;
        read(rt.alloc(), &bytes).err(),
        Some(ReadError::Unreadable(50))
    );
    Ok(())
}

#[test]
fn reads_what_was_written(rt: HostRuntime) -> Result<(), Fail> {
    let records = PLACED.map(|placed| placed.record);
    let bytes = write(rt.alloc(), &records)?;
    assert!(rt; bytes.as_slice() == SAMPLE.as_slice());
    Ok(())
}

#[test]
fn keeps_the_limit(rt: HostRuntime) -> Result<(), Fail> {
    let zeros = vec![in rt.alloc(); 0u8; 65_536]?;
    let cases = [
        (0, None),
        (16_366, None),
        (16_367, Some(WriteError::ImageTooLong)),
        (65_536, Some(WriteError::FillTooLong)),
    ];
    for (length, refused) in cases {
        assert!(rt; length <= zeros.len());
        let records = [Record::Fill(Fill {
            p: 0,
            k: 0,
            offset: 0,
            bytes: &zeros[0..length],
        })];
        assert_eq!(rt; write(rt.alloc(), &records).err(), refused);
    }
    Ok(())
}

#[test]
fn reads_up_to_the_limit(rt: HostRuntime) -> Result<(), Fail> {
    let mut bytes = vec![in rt.alloc(); 0u8; LIMIT]?;
    assert!(rt; bytes.len() == LIMIT);
    // one fill of 16,366 bytes
    bytes[5] = 1;
    bytes[12] = 63;
    bytes[13] = 238;
    assert!(rt; read(rt.alloc(), &bytes)?.len() == 1);
    bytes.push(0)?;
    assert_eq!(rt;
        read(rt.alloc(), &bytes).err(),
        Some(ReadError::Unreadable(LIMIT))
    );
    Ok(())
}

fn steps(n: u32) -> Record<'static> {
    Record::Run(Run { p: 0, n })
}

#[test]
fn refuses_to_write(rt: HostRuntime) -> Result<(), Fail> {
    let swapped = [
        steps(0),
        Record::Fill(Fill {
            p: 0,
            k: 0,
            offset: 0,
            bytes: &[],
        }),
    ];
    assert_eq!(rt;
        write(rt.alloc(), &swapped).err(),
        Some(WriteError::OutOfOrder)
    );
    let many: Vec<Record> = (0..65_536u32).map(steps).collect(rt.alloc())?;
    assert_eq!(rt;
        write(rt.alloc(), &many).err(),
        Some(WriteError::TooManyRecords)
    );
    Ok(())
}
