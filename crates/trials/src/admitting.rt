//! Books with other units: their entries, what is read from them, and how loads are made.

use crate::checks::{book_of, check_entries};
use crate::sample::Sample;
use books::Book;
use sources::Pair;
use std::process::Abort;
use std::test::Fail;
use tables::{Entries, Refusal, Showing, make};

/// Checks how a load is made of three units, with a fourth place that stays as it is.
fn check_made<S: Showing>(rt: &impl Abort, source: &S, load: u64, numbers: [u32; 3]) {
    let mut places = [7; 4];
    assert_eq!(rt; make(source, load, &mut places), Ok(3));
    let [first, second, third] = numbers;
    assert_eq!(rt; places, [first, second, third, 7]);
}

/// Checks why a load is not made, and that all places stay as they are.
fn check_refused<S: Showing>(rt: &impl Abort, source: &S, load: u64, reason: Refusal) {
    let mut places = [7; 3];
    assert_eq!(rt; make(source, load, &mut places), Err(reason));
    assert_eq!(rt; places, [7; 3]);
}

#[test]
fn reads_a_book(rt: HostRuntime) -> Result<(), Fail> {
    let book = book_of(rt.alloc(), 5, [8, 12])?;
    check_entries(&rt, &book, [0, 16, 12, 8, 24]);
    assert_eq!(rt; book.largest(), Ok(19));
    assert_eq!(rt; book.gaps(), Ok(10));
    assert_eq!(rt; book.size(2), Some(12));
    assert_eq!(rt; book.size(3), None);
    assert_eq!(rt; book.step(4), Some(1));
    assert_eq!(rt; book.spare(8), Ok(false));
    assert_eq!(rt; book.spare(9), Err(Refusal::NotAdmitted(9)));
    Ok(())
}

#[test]
fn makes_loads(rt: HostRuntime) -> Result<(), Fail> {
    let book = book_of(rt.alloc(), 5, [12, 8])?;
    check_made(&rt, &book, 24, [0, 3, 0]);
    check_made(&rt, &book, 1_000_000_000, [200_000_000, 0, 0]);
    check_refused(&rt, &book, 19, Refusal::Unmakeable(4));
    check_refused(&rt, &book, 1_000_000_001, Refusal::LoadTooLarge);
    check_made(&rt, &Sample, 37, [5, 0, 1]);
    check_refused(&rt, &Sample, 11, Refusal::Unmakeable(1));
    let mut two = [7; 2];
    assert_eq!(rt; make(&Sample, 24, &mut two), Err(Refusal::NoRoom(3)));
    assert_eq!(rt; make(&Pair::new(5, 7)?, 26, &mut two), Ok(2));
    assert_eq!(rt; two, [1, 3]);
    Ok(())
}

#[test]
fn units_with_a_common_divisor(rt: HostRuntime) -> Result<(), Fail> {
    let mut book = Book::open(rt.alloc(), 6)?;
    book.admit(9)?;
    assert_eq!(rt; book.least(0), Some(0));
    assert_eq!(rt; book.least(3), Some(9));
    assert_eq!(rt; book.least(1), None);
    assert_eq!(rt; book.least(5), None);
    assert_eq!(rt; book.largest(), Err(Refusal::Endless(1)));
    book.admit(12)?;
    assert_eq!(rt; book.spare(12), Ok(true));
    Ok(())
}

#[test]
fn sixteen_units(rt: HostRuntime) -> Result<(), Fail> {
    let mut book = Book::open(rt.alloc(), 4_096)?;
    assert_eq!(rt; book.admit(0), Err(Refusal::OutOfRange(0)));
    assert_eq!(rt; book.admit(65_536), Err(Refusal::OutOfRange(65_536)));
    assert_eq!(rt; book.admit(4_096), Err(Refusal::AlreadyAdmitted(4_096)));
    for size in 65_521..65_536 {
        book.admit(size)?;
    }
    assert_eq!(rt; book.units(), 16);
    assert_eq!(rt; book.admit(65_535), Err(Refusal::AlreadyAdmitted(65_535)));
    assert_eq!(rt; book.admit(7), Err(Refusal::RowFull));
    assert_eq!(rt; book.size(15), Some(65_535));
    Ok(())
}
