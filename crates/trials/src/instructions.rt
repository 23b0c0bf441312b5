// Instructions of every row of the map, decoded, encoded and written out.
use super::checks::check;
use disasm::Text;
use isa::{Indexing, Instruction, Kind, NoSide, Relation, Second, Side, Undecoded, Width, decode};
use std::alloc::Global;
use std::test::Fail;

// The bytes decode to an instruction that is written so, and that has these bytes again.
fn shows(heap: Global, bytes: &[u8], text: &str) -> Result<(), Fail> {
    let instruction = decode(bytes)?;
    let shown = format!(in heap; "{}", Text(instruction))?;
    check(shown.as_str() == text, text)?;
    let encoding = instruction
        .encode()
        .ok_or_else(|| Fail::new("not encoded"))?;
    check(encoding.as_slice() == bytes, text)
}

// The bytes are no carried instruction, for this reason.
fn fails(bytes: &[u8], why: Undecoded) -> Result<(), Fail> {
    check(decode(bytes) == Err(why), "decoded, or another reason")
}

fn all_show(heap: Global, cases: &[(&[u8], &str)]) -> Result<(), Fail> {
    for (bytes, text) in cases {
        shows(heap, bytes, text)?;
    }
    Ok(())
}

fn all_fail(cases: &[(&[u8], Undecoded)]) -> Result<(), Fail> {
    for (bytes, why) in cases {
        fails(bytes, *why)?;
    }
    Ok(())
}

#[test]
fn rows_0_and_1(rt: HostRuntime) -> Result<(), Fail> {
    all_show(
        rt.alloc(),
        &[
            (&[0x01, 0x12], "MOVE R1, R2"),
            (&[0x03, 0x67], "ADD R6, R7"),
            (&[0x06, 0xf0], "DIV R15, R0"),
            (&[0x0e, 0x46], "TBIT R4, R6"),
            (&[0x0f, 0x12], "CHK R1, R2"),
            (&[0x10, 0x00], "NOP"),
            (&[0x13, 0x65], "ADDI R6, 5"),
            (&[0x18, 0x10], "NOTI R1, 0"),
            (&[0x1f, 0x1f], "CHKI R1, 15"),
        ],
    )
}

#[test]
fn rows_2_to_4(rt: HostRuntime) -> Result<(), Fail> {
    all_show(
        rt.alloc(),
        &[
            (&[0x28, 0x12], "LCOMP R1, R2"),
            (&[0x38, 0x46], "DCOMP R4, R6"),
            (&[0x3b, 0x03], "TRAP 3"),
        ],
    )?;
    all_fail(&[
        (&[0x20, 0x12], Undecoded::NotCarried),
        (&[0x2f, 0x12], Undecoded::NotCarried),
        (&[0x2b, 0x12], Undecoded::Empty),
        (&[0x3a, 0x12], Undecoded::NotCarried),
        (&[0x40, 0x00], Undecoded::Kernel),
        (&[0x4c, 0x0f], Undecoded::Kernel),
        (&[0x4d, 0x00], Undecoded::Empty),
        (&[0x4f, 0x00], Undecoded::Kernel),
    ])
}

// One map lost the mark of 51h under the name of its group.
#[test]
fn row_5_has_twelve_tests(rt: HostRuntime) -> Result<(), Fail> {
    all_show(
        rt.alloc(),
        &[
            (&[0x50, 0x12], "TEST R1 > R2"),
            (&[0x51, 0x12], "TEST R1 < R2"),
            (&[0x52, 0x12], "TEST R1 = R2"),
            (&[0x53, 0x12], "CALLR R1, R2"),
            (&[0x55, 0x15], "TESTI R1 < 5"),
            (&[0x57, 0x33], "RET R3, R3"),
            (&[0x58, 0x12], "TEST R1 <= R2"),
            (&[0x59, 0x12], "TEST R1 >= R2"),
            (&[0x5a, 0x12], "TEST R1 <> R2"),
            (&[0x5b, 0xff], "KCALL 255"),
            (&[0x5e, 0x15], "TESTI R1 <> 5"),
        ],
    )?;
    all_fail(&[(&[0x5f, 0x00], Undecoded::Empty)])
}

// The two maps differ in the order of row 7: it is that of row 6.
#[test]
fn rows_6_and_7_have_one_order(rt: HostRuntime) -> Result<(), Fail> {
    all_show(
        rt.alloc(),
        &[
            (&[0x60, 0x12], "LSL R1, R2"),
            (&[0x63, 0x12], "ASR R1, R2"),
            (&[0x6a, 0x12], "SEB R1, R2"),
            (&[0x70, 0x15], "LSLI R1, 5"),
            (&[0x71, 0x15], "LSRI R1, 5"),
            (&[0x72, 0x15], "ASLI R1, 5"),
            (&[0x73, 0x15], "ASRI R1, 5"),
            (&[0x74, 0x15], "DLSLI R1, 5"),
            (&[0x75, 0x15], "DLSRI R1, 5"),
            (&[0x78, 0x15], "CSLI R1, 5"),
            (&[0x7a, 0x12], "SEH R1, R2"),
        ],
    )
}

// The mark of 86h and 96h is damaged in one map and missing in the other.
#[test]
fn rows_8_and_9(rt: HostRuntime) -> Result<(), Fail> {
    all_show(
        rt.alloc(),
        &[
            (&[0x86, 0x15, 0x00, 0x0c], "BR R1 = 5, 12"),
            (&[0x96, 0x15, 0x00, 0x00, 0x00, 0x0c], "BR R1 = 5, 12"),
            (&[0x80, 0x12, 0x00, 0x0c], "BR R1 > R2, 12"),
            (&[0x88, 0x12, 0xff, 0xf8], "BR R1 <= R2, -8"),
            (&[0x8b, 0x00, 0xff, 0xf9], "BR -7"),
            (&[0x83, 0x10, 0x00, 0x40], "CALL R1, 64"),
            (&[0x97, 0x12, 0xff, 0xff, 0xff, 0xf4], "LOOP R1, 2, -12"),
            (&[0x9b, 0x34, 0x80, 0x00, 0x00, 0x00], "BR -2147483648"),
        ],
    )?;
    all_fail(&[
        (&[0x81, 0x12], Undecoded::Empty),
        (&[0x89, 0x12], Undecoded::Empty),
    ])
}

#[test]
fn rows_a_to_f(rt: HostRuntime) -> Result<(), Fail> {
    all_show(
        rt.alloc(),
        &[
            (&[0xa1, 0x12, 0xff, 0xfc], "STOREB R1, R2 - 4"),
            (&[0xb8, 0xf0, 0x00, 0x00, 0x00, 0x08], "STORED R15, 8"),
            (&[0xc2, 0x10, 0x10, 0x01], "LOADH R1, 4097"),
            (&[0xc7, 0x12, 0x00, 0x00], "LOAD R1, R2 + 0"),
            (
                &[0xdf, 0x12, 0x80, 0x00, 0x00, 0x00],
                "LADDR R1, R2 - 2147483648",
            ),
            (&[0xe6, 0x10, 0x00, 0x02], "LOADP R1, 2"),
            (&[0xe9, 0xf1, 0x80, 0x00], "LOADDP R15, R1 - 32768"),
            (
                &[0xfe, 0x10, 0x7f, 0xff, 0xff, 0xff],
                "LADDRP R1, 2147483647",
            ),
        ],
    )?;
    all_fail(&[
        (&[0xa4, 0x12], Undecoded::Empty),
        (&[0xcd, 0x12], Undecoded::Empty),
    ])
}

#[test]
fn a_wrong_length_is_no_instruction() -> Result<(), Fail> {
    all_fail(&[
        (&[], Undecoded::WrongLength),
        (&[0x03], Undecoded::WrongLength),
        (&[0x03, 0x12, 0x00], Undecoded::WrongLength),
        (&[0x80, 0x12], Undecoded::WrongLength),
        (
            &[0x80, 0x12, 0x00, 0x00, 0x00, 0x00],
            Undecoded::WrongLength,
        ),
        (&[0x90, 0x12, 0x00, 0x00], Undecoded::WrongLength),
        (&[0x12], Undecoded::WrongLength),
        (&[0x12, 0x00, 0x00], Undecoded::Empty),
    ])
}

// Whether some bytes spell the instruction.
fn fits(kind: Kind, size: u8, x: u8, y: u8, displacement: u32) -> bool {
    let instruction = Instruction {
        kind,
        size,
        x,
        y,
        displacement,
    };
    instruction.encode().is_some()
}

#[test]
fn fields_and_size_fit_the_format(rt: HostRuntime) {
    let add = Kind::Add(Second::Register);
    assert!(rt; fits(add, 2, 15, 15, 0));
    assert!(rt; !fits(add, 2, 16, 2, 0));
    assert!(rt; !fits(add, 2, 1, 16, 0));
    assert!(rt; !fits(add, 4, 1, 2, 0));
    assert!(rt; !fits(add, 2, 1, 2, 1));
}

// A short displacement has the sign of 16 bits.
#[test]
fn a_displacement_fits_its_size(rt: HostRuntime) {
    let load = Kind::Load(Side::Data, Width::Word, Indexing::Direct);
    assert!(rt; fits(load, 4, 1, 2, 0x7fff));
    assert!(rt; !fits(load, 4, 1, 2, 0x8000));
    assert!(rt; !fits(load, 4, 1, 2, 0xffff_7fff));
    assert!(rt; fits(load, 4, 1, 2, 0xffff_8000));
    assert!(rt; fits(load, 6, 1, 2, 0x8000));
    assert!(rt; !fits(load, 5, 1, 2, 0));
    assert!(rt; !fits(load, 2, 1, 2, 0));
}

// Two relations have no register form of the branch.
#[test]
fn no_bytes_branch_on_less_with_registers(rt: HostRuntime) {
    assert!(rt; !fits(Kind::Branch(Relation::Less, Second::Register), 4, 1, 2, 0));
    assert!(rt;
        !fits(
            Kind::Branch(Relation::GreaterOrEqual, Second::Register),
            6,
            1,
            2,
            0,
        )
    );
    assert!(rt; fits(Kind::Branch(Relation::Less, Second::Field), 4, 1, 2, 0));
}

#[test]
fn a_side_has_a_number_and_a_name(rt: HostRuntime) -> Result<(), Fail> {
    for (number, side, name) in [(0, Side::Code, "code"), (1, Side::Data, "data")] {
        check(u16::from(side) == number, name)?;
        check(Side::try_from(number) == Ok(side), name)?;
        let shown = format!(in rt.alloc(); "{side}")?;
        check(shown.as_str() == name, name)?;
    }
    check(Side::try_from(2) == Err(NoSide), "two")
}
