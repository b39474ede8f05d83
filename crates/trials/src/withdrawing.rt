//! Withdrawals: the table of the smaller row, and what is left of the strip.

use crate::checks::{book_of, check_entries};
use std::test::Fail;
use tables::{Entries, Refusal, Showing};

#[test]
fn builds_the_table_afresh(rt: HostRuntime) -> Result<(), Fail> {
    let mut book = book_of(rt.alloc(), 5, [12, 8])?;
    let mut strip = [1, 7, 1, 0, 255, 6, 1];
    assert_eq!(rt; book.withdraw(8, &mut strip), Ok(()));
    assert_eq!(rt; strip, [0, 0, 0, 0, 0, 6, 1]);
    check_entries(&rt, &book, [0, 36, 12, 48, 24]);
    assert_eq!(rt; book.units(), 2);
    assert_eq!(rt; book.largest(), Ok(43));
    assert_eq!(rt; book.gaps(), Ok(22));
    assert_eq!(rt; book.withdraw(12, &mut strip), Ok(()));
    assert_eq!(rt; book.least(2), None);
    assert_eq!(rt; book.largest(), Err(Refusal::Endless(1)));
    Ok(())
}

#[test]
fn refuses_and_clears_the_strip(rt: HostRuntime) -> Result<(), Fail> {
    let mut book = book_of(rt.alloc(), 5, [12, 8])?;
    let mut short = [1, 2, 3, 4];
    assert_eq!(rt; book.withdraw(5, &mut short), Err(Refusal::NoRoom(5)));
    assert_eq!(rt; short, [1, 2, 3, 4]);
    let mut strip = [1; 6];
    assert_eq!(rt; book.withdraw(5, &mut strip), Err(Refusal::IsBase(5)));
    assert_eq!(rt; strip, [0, 0, 0, 0, 0, 1]);
    strip = [2; 6];
    assert_eq!(rt; book.withdraw(9, &mut strip), Err(Refusal::NotAdmitted(9)));
    assert_eq!(rt; strip, [0, 0, 0, 0, 0, 2]);
    check_entries(&rt, &book, [0, 16, 12, 8, 24]);
    Ok(())
}
