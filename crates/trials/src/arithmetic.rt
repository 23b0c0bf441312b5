// The arithmetic of words at its edges, against tables of exact results.
use super::checks::check;
use std::test::Fail;
use words::{Field, Kept, add, divide, multiply, negate, remainder, subtract};

pub const MOST: u32 = 0x7fff_ffff;

pub const LEAST: u32 = 0x8000_0000;

pub const MINUS: u32 = 0xffff_ffff;

// A table has a row for each of these as first operand and a column for each as second. In its marks an x stands for
// overflow and a dash for a zero divisor.
const EDGES: [u32; 5] = [0, 1, MOST, LEAST, MINUS];

// The columns of the tables for immediate forms.
const FIELDS: [Field; 3] = [Field(0), Field(1), Field(15)];

const SUMS: [([u32; 5], &str); 5] = [
    ([0, 1, MOST, LEAST, MINUS], "....."),
    ([1, 2, LEAST, 0x8000_0001, 0], "..x.."),
    ([MOST, LEAST, 0xffff_fffe, MINUS, 0x7fff_fffe], ".xx.."),
    ([LEAST, 0x8000_0001, MINUS, 0, MOST], "...xx"),
    ([MINUS, 0, 0x7fff_fffe, MOST, 0xffff_fffe], "...x."),
];

const DIFFERENCES: [([u32; 5], &str); 5] = [
    ([0, MINUS, 0x8000_0001, LEAST, 1], "...x."),
    ([1, 0, 0x8000_0002, 0x8000_0001, 2], "...x."),
    ([MOST, 0x7fff_fffe, 0, MINUS, LEAST], "...xx"),
    ([LEAST, MOST, 1, 0, 0x8000_0001], ".xx.."),
    ([MINUS, 0xffff_fffe, LEAST, MOST, 0], "....."),
];

const PRODUCTS: [([u32; 5], &str); 5] = [
    ([0, 0, 0, 0, 0], "....."),
    ([0, 1, MOST, LEAST, MINUS], "....."),
    ([0, MOST, 1, LEAST, 0x8000_0001], "..xx."),
    ([0, LEAST, LEAST, 0, LEAST], "..xxx"),
    ([0, MINUS, 0x8000_0001, LEAST, 1], "...x."),
];

const QUOTIENTS: [([u32; 5], &str); 5] = [
    ([0, 0, 0, 0, 0], "-...."),
    ([0, 1, 0, 0, MINUS], "-...."),
    ([0, MOST, 1, 0, 0x8000_0001], "-...."),
    ([0, LEAST, MINUS, 1, LEAST], "-...x"),
    ([0, MINUS, 0, 0, 1], "-...."),
];

const REMAINDERS: [([u32; 5], &str); 5] = [
    ([0, 0, 0, 0, 0], "-...."),
    ([0, 0, 1, 1, 0], "-...."),
    ([0, 0, 0, MOST, 0], "-...."),
    ([0, 0, MINUS, 0, 0], "-...."),
    ([0, 0, MINUS, MINUS, 0], "-...."),
];

const SUMS_WITH_A_FIELD: [([u32; 3], &str); 5] = [
    ([0, 1, 15], "..."),
    ([1, 2, 16], "..."),
    ([MOST, LEAST, 0x8000_000e], ".xx"),
    ([LEAST, 0x8000_0001, 0x8000_000f], "..."),
    ([MINUS, 0, 14], "..."),
];

const DIFFERENCES_WITH_A_FIELD: [([u32; 3], &str); 5] = [
    ([0, MINUS, 0xffff_fff1], "..."),
    ([1, 0, 0xffff_fff2], "..."),
    ([MOST, 0x7fff_fffe, 0x7fff_fff0], "..."),
    ([LEAST, MOST, 0x7fff_fff1], ".xx"),
    ([MINUS, 0xffff_fffe, 0xffff_fff0], "..."),
];

const PRODUCTS_WITH_A_FIELD: [([u32; 3], &str); 5] = [
    ([0, 0, 0], "..."),
    ([0, 1, 15], "..."),
    ([0, MOST, 0x7fff_fff1], "..x"),
    ([0, LEAST, LEAST], "..x"),
    ([0, MINUS, 0xffff_fff1], "..."),
];

fn kept_is(found: Kept, word: u32, mark: u8) -> Result<(), Fail> {
    check(found.word == word, "another word")?;
    check(found.overflow == (mark == b'x'), "overflow")
}

fn quotient_is(found: Option<Kept>, word: u32, mark: u8) -> Result<(), Fail> {
    match found {
        Some(kept) => kept_is(kept, word, mark),
        None => check(mark == b'-', "no quotient"),
    }
}

fn remainder_is(found: Option<u32>, word: u32, mark: u8) -> Result<(), Fail> {
    match found {
        Some(rest) => {
            check(mark == b'.', "a remainder")?;
            check(rest == word, "another remainder")
        }
        None => check(mark == b'-', "no remainder"),
    }
}

// Holds what an operation answers at each place of a table against the word and the mark that stand there.
fn each<B, R, F, G, const N: usize>(
    columns: &[B; N],
    table: &[([u32; N], &str); 5],
    operation: F,
    is: G,
) -> Result<(), Fail>
where
    B: Copy,
    F: Fn(u32, B) -> R,
    G: Fn(R, u32, u8) -> Result<(), Fail>,
    requires operates { F.IsAlwaysCallable operation }
    requires compares { G.IsAlwaysCallable is }
{
    for (a, (words, marks)) in EDGES.iter().zip(table.iter()) {
        for ((b, word), mark) in columns.iter().zip(words.iter()).zip(marks.bytes()) {
            is(operation(*a, *b), *word, mark)?;
        }
    }
    Ok(())
}

#[test]
fn sums() -> Result<(), Fail> {
    each(&EDGES, &SUMS, |a, b| add(a, b), kept_is)
}

#[test]
fn differences() -> Result<(), Fail> {
    each(&EDGES, &DIFFERENCES, |a, b| subtract(a, b), kept_is)
}

#[test]
fn products() -> Result<(), Fail> {
    each(&EDGES, &PRODUCTS, |a, b| multiply(a, b), kept_is)
}

#[test]
fn quotients() -> Result<(), Fail> {
    each(&EDGES, &QUOTIENTS, |a, b| divide(a, b), quotient_is)
}

#[test]
fn remainders() -> Result<(), Fail> {
    each(&EDGES, &REMAINDERS, |a, b| remainder(a, b), remainder_is)
}

#[test]
fn sums_with_a_field() -> Result<(), Fail> {
    each(&FIELDS, &SUMS_WITH_A_FIELD, |a, b| add(a, b), kept_is)
}

#[test]
fn differences_with_a_field() -> Result<(), Fail> {
    each(
        &FIELDS,
        &DIFFERENCES_WITH_A_FIELD,
        |a, b| subtract(a, b),
        kept_is,
    )
}

#[test]
fn products_with_a_field() -> Result<(), Fail> {
    each(
        &FIELDS,
        &PRODUCTS_WITH_A_FIELD,
        |a, b| multiply(a, b),
        kept_is,
    )
}

#[test]
fn only_the_least_word_has_no_negative() -> Result<(), Fail> {
    kept_is(negate(LEAST), LEAST, b'x')?;
    kept_is(negate(MOST), 0x8000_0001, b'.')?;
    kept_is(negate(1), MINUS, b'.')?;
    kept_is(negate(MINUS), 1, b'.')?;
    kept_is(negate(0), 0, b'.')
}
