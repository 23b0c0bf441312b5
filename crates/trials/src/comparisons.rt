// Relations, comparisons, logic, sign extension and addresses at their edges, and the check values of arithmetic.
use super::arithmetic::{LEAST, MINUS, MOST};
use super::checks::check;
use super::shifts::pair;
use std::cmp::Ordering;
use std::test::Fail;
use words::{
    Field, Kept, Pair, Relation, add, address, and, compare_unsigned, complement, divide, even,
    exclusive_or, extend, or, remainder, sum, target, whole, word,
};

// Signed words from the lowest to the highest.
const SIGNED: [u32; 5] = [LEAST, MINUS, 0, 1, MOST];

// Words without a sign from the lowest to the highest.
const UNSIGNED: [u32; 5] = [0, 1, MOST, LEAST, MINUS];

// Pairs from the lowest to the highest as signed numbers.
const PAIRS: [(u32, u32); 7] = [
    (LEAST, 0),
    (MINUS, 0),
    (MINUS, MINUS),
    (0, 0),
    (0, LEAST),
    (1, 0),
    (MOST, MINUS),
];

// What a comparison of two places in an order answers.
fn placed(i: usize, j: usize) -> u32 {
    match i.cmp(&j) {
        Ordering::Less => MINUS,
        Ordering::Equal => 0,
        Ordering::Greater => 1,
    }
}

#[test]
fn relations_between_words(rt: HostRuntime) {
    for (i, a) in SIGNED.iter().enumerate() {
        for (j, b) in SIGNED.iter().enumerate() {
            assert_eq!(rt; Relation::Greater.holds(*a, *b), i > j);
            assert_eq!(rt; Relation::Less.holds(*a, *b), i < j);
            assert_eq!(rt; Relation::Equal.holds(*a, *b), i == j);
            assert_eq!(rt; Relation::LessOrEqual.holds(*a, *b), i <= j);
            assert_eq!(rt; Relation::GreaterOrEqual.holds(*a, *b), i >= j);
            assert_eq!(rt; Relation::NotEqual.holds(*a, *b), i != j);
        }
    }
}

#[test]
fn relations_with_a_field(rt: HostRuntime) {
    assert!(rt; Relation::Less.holds(MINUS, Field(0)));
    assert!(rt; Relation::Less.holds(14, Field(15)));
    assert!(rt; Relation::Greater.holds(MOST, Field(15)));
    assert!(rt; Relation::Greater.holds(16, Field(15)));
    assert!(rt; Relation::Equal.holds(15, Field(15)));
    assert!(rt; Relation::LessOrEqual.holds(LEAST, Field(1)));
    assert!(rt; Relation::GreaterOrEqual.holds(0, Field(0)));
    assert!(rt; Relation::NotEqual.holds(MINUS, Field(15)));
}

// Holds what a comparison answers of any two things of a list from the lowest to the highest.
fn ordered<T: Copy, F: Fn(T, T) -> u32>(things: &[T], compare: F) -> Result<(), Fail>
    requires { F.IsAlwaysCallable compare }
{
    for (i, a) in things.iter().enumerate() {
        for (j, b) in things.iter().enumerate() {
            check(compare(*a, *b) == placed(i, j), "another order")?;
        }
    }
    Ok(())
}

#[test]
fn comparisons_of_words() -> Result<(), Fail> {
    ordered(&UNSIGNED, |a, b| compare_unsigned(a, b))
}

#[test]
fn comparisons_of_pairs() -> Result<(), Fail> {
    ordered(&PAIRS, |a, b| pair(a).compare(pair(b)))
}

#[test]
fn logic_goes_bit_by_bit(rt: HostRuntime) {
    assert_eq!(rt; and(0x0f0f_3355, 0x00ff_5533), 0x000f_1111);
    assert_eq!(rt; or(0x0f0f_3355, 0x00ff_5533), 0x0fff_7777);
    assert_eq!(rt; exclusive_or(0x0f0f_3355, 0x00ff_5533), 0x0ff0_6666);
    assert_eq!(rt; complement(0x0f0f_3355), 0xf0f0_ccaa);
    assert_eq!(rt; complement(0), MINUS);
    assert_eq!(rt; and(MINUS, Field(15)), 15);
    assert_eq!(rt; and(LEAST, Field(15)), 0);
    assert_eq!(rt; complement(Field(0)), MINUS);
    assert_eq!(rt; complement(Field(15)), 0xffff_fff0);
}

#[test]
fn signs_are_extended(rt: HostRuntime) {
    assert_eq!(rt; extend::<i8>(0x1234_567f), 0x7f);
    assert_eq!(rt; extend::<i8>(0x1234_5680), 0xffff_ff80);
    assert_eq!(rt; extend::<i8>(MINUS), MINUS);
    assert_eq!(rt; extend::<i8>(0x100), 0);
    assert_eq!(rt; extend::<i16>(0x1234_7fff), 0x7fff);
    assert_eq!(rt; extend::<i16>(0x1234_8000), 0xffff_8000);
    assert_eq!(rt; extend::<i16>(0x0001_0000), 0);
    assert_eq!(rt; extend::<i16>(0x7fff), 0x7fff);
    assert_eq!(rt; extend::<i16>(0xfffe), 0xffff_fffe);
}

#[test]
fn addresses_wrap_and_targets_are_even(rt: HostRuntime) {
    assert_eq!(rt; sum(MINUS, 2), 1);
    assert_eq!(rt; sum(LEAST, LEAST), 0);
    assert_eq!(rt; address(0x100, 0, 0xffff_fffe), 0xfe);
    assert_eq!(rt; address(MINUS, MINUS, 3), 1);
    assert_eq!(rt; even(MINUS), 0xffff_fffe);
    assert_eq!(rt; even(0x200), 0x200);
    assert_eq!(rt; target(0x100, 0xffff_fff9), 0xf8);
    assert_eq!(rt; target(0xffff_fffe, 5), 2);
}

#[test]
fn words_and_whole_numbers(rt: HostRuntime) {
    assert_eq!(rt; whole(MOST), 2_147_483_647);
    assert_eq!(rt; whole(LEAST), -2_147_483_648);
    assert_eq!(rt; word(-1), MINUS);
    assert_eq!(rt; word(i64::MIN), 0);
    assert_eq!(rt; word(4_294_967_296 + 7), 7);
    assert_eq!(rt; u64::from(Pair { high: 1, low: 2 }), 4_294_967_298);
    assert_eq!(rt;
        Pair::from(u64::MAX),
        Pair {
            high: MINUS,
            low: MINUS,
        }
    );
}

// The settled check values of docs/processor.md that are about arithmetic alone.
#[test]
fn check_values(rt: HostRuntime) {
    assert_eq!(rt;
        add(MOST, 1),
        Kept {
            word: LEAST,
            overflow: true,
        }
    );
    assert_eq!(rt;
        divide(LEAST, MINUS),
        Some(Kept {
            word: LEAST,
            overflow: true,
        })
    );
    assert_eq!(rt; remainder(LEAST, MINUS), Some(0));
    // LOOP of FFFFFFFFh by 1: the sum is 0, which is not negative, so there is no branch
    assert_eq!(rt; sum(MINUS, 1), 0);
    assert!(rt; !Relation::Less.holds(sum(MINUS, 1), 0));
    // TBIT with 7Fh: bit 63 of the pair
    assert_eq!(rt; Pair { high: 0, low: 1 }.test_bit(0x7f), 1);
    assert_eq!(rt;
        Pair { high: 1, low: 2 }.shift_left(32),
        Pair { high: 2, low: 0 }
    );
    assert_eq!(rt; compare_unsigned(MINUS, 1), 1);
}
