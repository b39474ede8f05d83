//! Pairs and meets on small numbers.

use crate::checks::check_entries;
use crate::sample::Sample;
use sources::{Meet, Pair};
use std::test::Fail;
use tables::{Entries, Refusal, Source, gaps, largest};

/// The meet of two sources, which are let go where it is refused.
fn meet_of<A: Source + Drop, B: Source + Drop>(first: A, second: B) -> Result<Meet<A, B>, Refusal> {
    Ok(Meet::new(first, second)?)
}

#[test]
fn reads_pair(rt: HostRuntime) -> Result<(), Fail> {
    let pair = Pair::new(5, 7)?;
    check_entries(&rt, &pair, [0, 21, 7, 28, 14]);
    assert_eq!(rt; largest(&pair)?, 23);
    assert_eq!(rt; gaps(&pair)?, 12);
    Ok(())
}

#[test]
fn refuses_pairs(rt: HostRuntime) {
    assert_eq!(rt; Pair::new(0, 7).err(), Some(Refusal::OutOfRange(0)));
    assert_eq!(rt; Pair::new(4097, 7).err(), Some(Refusal::OutOfRange(4097)));
    assert_eq!(rt; Pair::new(5, 0).err(), Some(Refusal::OutOfRange(0)));
    assert_eq!(rt; Pair::new(5, 65536).err(), Some(Refusal::OutOfRange(65536)));
    assert_eq!(rt; Pair::new(5, 5).err(), Some(Refusal::AlreadyAdmitted(5)));
    assert_eq!(rt; Pair::new(6, 9).err(), Some(Refusal::CommonDivisor(3)));
}

#[test]
fn reads_meet(rt: HostRuntime) -> Result<(), Fail> {
    let common = meet_of(Pair::new(5, 7)?, Sample)?;
    check_entries(&rt, &common, [0, 21, 12, 28, 24]);
    assert_eq!(rt; largest(&common)?, 23);
    assert_eq!(rt; gaps(&common)?, 15);
    Ok(())
}

#[test]
fn meets_nest(rt: HostRuntime) -> Result<(), Fail> {
    let common = meet_of(meet_of(Pair::new(5, 7)?, Sample)?, Pair::new(5, 9)?)?;
    check_entries(&rt, &common, [0, 36, 27, 28, 24]);
    Ok(())
}

#[test]
fn meets_lent_sources(rt: HostRuntime) -> Result<(), Fail> {
    let pair = Pair::new(5, 7)?;
    let common = meet_of(&pair, &Sample)?;
    check_entries(&rt, &common, [0, 21, 12, 28, 24]);
    check_entries(&rt, &pair, [0, 21, 7, 28, 14]);
    Ok(())
}

#[test]
fn gives_both_back(rt: HostRuntime) -> Result<(), Fail> {
    let Err(back) = Meet::new(Pair::new(6, 7)?, Sample) else {
        return Err(Fail::new("a meet at unequal bases"));
    };
    assert_eq!(rt; back.reason, Refusal::BasesDiffer(5));
    assert_eq!(rt; back.first.base(), 6);
    check_entries(&rt, &back.second, [0, 16, 12, 8, 24]);
    Ok(())
}
