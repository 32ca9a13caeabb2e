// What the tests ask of an answer.
use plan::refusals::{Figures, Refusal};
use std::process::Abort;
use std::test::Fail;

// A refusal has this number and these figures. The rules give the numbers, and the tests hold the enum against them.
pub(crate) fn tells(rt: &impl Abort, refusal: Refusal, number: u8, first: u32, second: u32) {
    assert_eq!(rt; refusal.number(), number);
    assert_eq!(rt; refusal.figures(), Figures { first, second });
}

// An answer is a refusal with this number and this place as its first figure.
pub(crate) fn refused<T: Drop>(
    rt: &impl Abort,
    answer: Result<T, Refusal>,
    number: u8,
    place: u32,
) -> Result<(), Fail> {
    let Err(refusal) = answer else {
        return Err(Fail::new("accepted"));
    };
    tells(rt, refusal, number, place, 0);
    Ok(())
}
