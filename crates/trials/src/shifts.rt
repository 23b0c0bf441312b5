// Shifts of words and pairs, and the bits of pairs, by counts at and beyond their width.
use super::arithmetic::{LEAST, MINUS, MOST};
use super::checks::check;
use std::test::Fail;
use words::{Pair, rotate_left, shift_left, shift_right, shift_right_arithmetic};

// A table of words has a row for each of these and a column for each count.
const WORDS: [u32; 5] = [0, 1, MOST, LEAST, MINUS];

const COUNTS: [u32; 6] = [0, 31, 32, 63, 64, 127];

const LEFT: [[u32; 6]; 5] = [
    [0, 0, 0, 0, 0, 0],
    [1, LEAST, 1, LEAST, 1, LEAST],
    [MOST, LEAST, MOST, LEAST, MOST, LEAST],
    [LEAST, 0, LEAST, 0, LEAST, 0],
    [MINUS, LEAST, MINUS, LEAST, MINUS, LEAST],
];

const RIGHT: [[u32; 6]; 5] = [
    [0, 0, 0, 0, 0, 0],
    [1, 0, 1, 0, 1, 0],
    [MOST, 0, MOST, 0, MOST, 0],
    [LEAST, 1, LEAST, 1, LEAST, 1],
    [MINUS, 1, MINUS, 1, MINUS, 1],
];

const RIGHT_WITH_THE_SIGN: [[u32; 6]; 5] = [
    [0, 0, 0, 0, 0, 0],
    [1, 0, 1, 0, 1, 0],
    [MOST, 0, MOST, 0, MOST, 0],
    [LEAST, MINUS, LEAST, MINUS, LEAST, MINUS],
    [MINUS, MINUS, MINUS, MINUS, MINUS, MINUS],
];

const AROUND: [[u32; 6]; 5] = [
    [0, 0, 0, 0, 0, 0],
    [1, LEAST, 1, LEAST, 1, LEAST],
    [MOST, 0xbfff_ffff, MOST, 0xbfff_ffff, MOST, 0xbfff_ffff],
    [LEAST, 0x4000_0000, LEAST, 0x4000_0000, LEAST, 0x4000_0000],
    [MINUS, MINUS, MINUS, MINUS, MINUS, MINUS],
];

// A pair, a count, and the pair shifted left and right by it.
const SHIFTED: [((u32, u32), u32, (u32, u32), (u32, u32)); 21] = [
    ((0, 1), 0, (0, 1), (0, 1)),
    ((0, 1), 31, (0, LEAST), (0, 0)),
    ((0, 1), 32, (1, 0), (0, 0)),
    ((0, 1), 63, (LEAST, 0), (0, 0)),
    ((0, 1), 64, (0, 1), (0, 1)),
    ((0, 1), 127, (LEAST, 0), (0, 0)),
    (
        (0x1234_5678, 0x9abc_def0),
        0,
        (0x1234_5678, 0x9abc_def0),
        (0x1234_5678, 0x9abc_def0),
    ),
    (
        (0x1234_5678, 0x9abc_def0),
        31,
        (0x4d5e_6f78, 0),
        (0, 0x2468_acf1),
    ),
    (
        (0x1234_5678, 0x9abc_def0),
        32,
        (0x9abc_def0, 0),
        (0, 0x1234_5678),
    ),
    ((0x1234_5678, 0x9abc_def0), 63, (0, 0), (0, 0)),
    (
        (0x1234_5678, 0x9abc_def0),
        64,
        (0x1234_5678, 0x9abc_def0),
        (0x1234_5678, 0x9abc_def0),
    ),
    ((0x1234_5678, 0x9abc_def0), 127, (0, 0), (0, 0)),
    ((LEAST, 0), 0, (LEAST, 0), (LEAST, 0)),
    ((LEAST, 0), 31, (0, 0), (1, 0)),
    ((LEAST, 0), 32, (0, 0), (0, LEAST)),
    ((LEAST, 0), 63, (0, 0), (0, 1)),
    ((LEAST, 0), 127, (0, 0), (0, 1)),
    ((MINUS, MINUS), 0, (MINUS, MINUS), (MINUS, MINUS)),
    ((MINUS, MINUS), 31, (MINUS, LEAST), (1, MINUS)),
    ((MINUS, MINUS), 32, (MINUS, 0), (0, MINUS)),
    ((MINUS, MINUS), 63, (LEAST, 0), (0, 1)),
];

// A pair, a count, the bit of that number, and the pair with it set and cleared.
const BITS: [((u32, u32), u32, u32, (u32, u32), (u32, u32)); 21] = [
    ((0, 1), 0, 0, (LEAST, 1), (0, 1)),
    ((0, 1), 31, 0, (1, 1), (0, 1)),
    ((0, 1), 32, 0, (0, 0x8000_0001), (0, 1)),
    ((0, 1), 63, 1, (0, 1), (0, 0)),
    ((0, 1), 64, 0, (LEAST, 1), (0, 1)),
    ((0, 1), 127, 1, (0, 1), (0, 0)),
    (
        (0x1234_5678, 0x9abc_def0),
        0,
        0,
        (0x9234_5678, 0x9abc_def0),
        (0x1234_5678, 0x9abc_def0),
    ),
    (
        (0x1234_5678, 0x9abc_def0),
        31,
        0,
        (0x1234_5679, 0x9abc_def0),
        (0x1234_5678, 0x9abc_def0),
    ),
    (
        (0x1234_5678, 0x9abc_def0),
        32,
        1,
        (0x1234_5678, 0x9abc_def0),
        (0x1234_5678, 0x1abc_def0),
    ),
    (
        (0x1234_5678, 0x9abc_def0),
        63,
        0,
        (0x1234_5678, 0x9abc_def1),
        (0x1234_5678, 0x9abc_def0),
    ),
    (
        (0x1234_5678, 0x9abc_def0),
        64,
        0,
        (0x9234_5678, 0x9abc_def0),
        (0x1234_5678, 0x9abc_def0),
    ),
    (
        (0x1234_5678, 0x9abc_def0),
        127,
        0,
        (0x1234_5678, 0x9abc_def1),
        (0x1234_5678, 0x9abc_def0),
    ),
    ((LEAST, 0), 0, 1, (LEAST, 0), (0, 0)),
    ((LEAST, 0), 31, 0, (0x8000_0001, 0), (LEAST, 0)),
    ((LEAST, 0), 32, 0, (LEAST, LEAST), (LEAST, 0)),
    ((LEAST, 0), 63, 0, (LEAST, 1), (LEAST, 0)),
    ((LEAST, 0), 127, 0, (LEAST, 1), (LEAST, 0)),
    ((MINUS, MINUS), 0, 1, (MINUS, MINUS), (MOST, MINUS)),
    ((MINUS, MINUS), 31, 1, (MINUS, MINUS), (0xffff_fffe, MINUS)),
    ((MINUS, MINUS), 32, 1, (MINUS, MINUS), (MINUS, MOST)),
    ((MINUS, MINUS), 63, 1, (MINUS, MINUS), (MINUS, 0xffff_fffe)),
];

pub fn pair((high, low): (u32, u32)) -> Pair {
    Pair { high, low }
}

// Holds what a shift answers at each place of a table against the word that stands there.
fn each<F: Fn(u32, u32) -> u32>(table: &[[u32; 6]; 5], shift: F) -> Result<(), Fail>
    requires { F.IsAlwaysCallable shift }
{
    for (a, row) in WORDS.iter().zip(table.iter()) {
        for (count, word) in COUNTS.iter().zip(row.iter()) {
            check(shift(*a, *count) == *word, "another word")?;
        }
    }
    Ok(())
}

#[test]
fn left() -> Result<(), Fail> {
    each(&LEFT, |a, count| shift_left(a, count))
}

#[test]
fn right() -> Result<(), Fail> {
    each(&RIGHT, |a, count| shift_right(a, count))
}

#[test]
fn right_with_the_sign() -> Result<(), Fail> {
    each(
        &RIGHT_WITH_THE_SIGN,
        |a, count| shift_right_arithmetic(a, count),
    )
}

#[test]
fn around() -> Result<(), Fail> {
    each(&AROUND, |a, count| rotate_left(a, count))
}

#[test]
fn pairs(rt: HostRuntime) {
    for (words, count, left, right) in SHIFTED {
        assert_eq!(rt; pair(words).shift_left(count), pair(left));
        assert_eq!(rt; pair(words).shift_right(count), pair(right));
    }
}

#[test]
fn bits(rt: HostRuntime) {
    for (words, count, bit, set, cleared) in BITS {
        assert_eq!(rt; pair(words).test_bit(count), bit);
        assert_eq!(rt; pair(words).set_bit(count), pair(set));
        assert_eq!(rt; pair(words).clear_bit(count), pair(cleared));
    }
}
