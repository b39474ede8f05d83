//! Books with a past: saved, restored, and surveyed.

use crate::checks::book_of;
use crate::sample::Sample;
use books::{Book, survey};
use sources::Pair;
use std::test::Fail;
use tables::{Entries, Refusal, Showing};

#[test]
fn a_book_comes_back_from_its_file(rt: HostRuntime) -> Result<(), Fail> {
    let mut book = book_of(rt.alloc(), 5, [8, 12])?;
    let mut file = [9; 33];
    assert_eq!(rt; book.save(&mut file), Ok(32));
    assert_eq!(rt; file[32], 9);
    let mut other = Book::open(rt.alloc(), 4)?;
    assert_eq!(rt; other.restore(&file), Err(Refusal::Malformed(32)));
    assert_eq!(rt; other.base(), 4);
    assert_eq!(rt; other.restore(&file[0..32]), Ok(()));
    assert_eq!(rt; other.units(), 3);
    assert_eq!(rt; other.size(2), Some(12));
    assert_eq!(rt; other.least(1), Some(16));
    let mut again = [0; 32];
    assert_eq!(rt; other.save(&mut again), Ok(32));
    assert!(rt; again.as_slice() == &file[0..32]);
    assert_eq!(rt; other.save(&mut again[0..31]), Err(Refusal::NoRoom(32)));
    Ok(())
}

#[test]
fn a_survey_answers_for_the_past(rt: HostRuntime) -> Result<(), Fail> {
    let mut book = book_of(rt.alloc(), 5, [8, 12])?;
    let mut file = [0; 32];
    assert_eq!(rt; book.save(&mut file), Ok(32));
    assert_eq!(rt; book.withdraw(8, &mut [0; 5]), Ok(()));
    let pair = Pair::new(5, 7)?;
    let mut numbers = [0; 2];
    let mut places = [0; 3];
    let found = survey(
        &mut book,
        24,
        &mut numbers,
        &Sample,
        &mut places,
        &pair,
        &file,
    );
    assert_eq!(rt; found.made, Ok(2));
    assert_eq!(rt; numbers, [0, 2]);
    assert_eq!(rt; found.largest, Ok(43));
    assert_eq!(rt; found.gaps, Ok(22));
    assert_eq!(rt; found.shown, Ok(3));
    assert_eq!(rt; places, [0, 3, 0]);
    assert_eq!(rt; found.greatest, Ok(23));
    assert_eq!(rt; found.missing, Ok(12));
    assert_eq!(rt; found.restored, Ok(()));
    assert_eq!(rt; book.largest(), Ok(19));
    Ok(())
}
