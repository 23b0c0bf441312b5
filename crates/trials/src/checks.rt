// What a helper of the tests answers: a failure with a note where something does not hold.
use std::test::Fail;

pub fn check(holds: bool, note: &str) -> Result<(), Fail> {
    if holds { Ok(()) } else { Err(Fail::new(note)) }
}
