//! Books of their base alone.

use books::Book;
use std::test::Fail;
use tables::{Entries, Refusal, gaps, largest};

#[test]
fn a_base_alone(rt: HostRuntime) -> Result<(), Fail> {
    let five = Book::open(rt.alloc(), 5)?;
    assert_eq!(rt; five.base(), 5);
    assert_eq!(rt; five.least(0), Some(0));
    assert_eq!(rt; five.least(1), None);
    assert_eq!(rt; five.least(4), None);
    assert_eq!(rt; five.least(5), None);
    assert_eq!(rt; largest(&five), Err(Refusal::Endless(1)));
    assert_eq!(rt; gaps(&five), Err(Refusal::Endless(1)));
    let one = Book::open(rt.alloc(), 1)?;
    assert_eq!(rt; one.largest(), Ok(-1));
    assert_eq!(rt; one.gaps(), Ok(0));
    Ok(())
}

#[test]
fn the_range_of_a_base(rt: HostRuntime) -> Result<(), Fail> {
    assert_eq!(rt; Book::open(rt.alloc(), 4_096)?.least(4_095), None);
    assert_eq!(rt;
        Book::open(rt.alloc(), 0).err(),
        Some(Refusal::OutOfRange(0))
    );
    assert_eq!(rt;
        Book::open(rt.alloc(), 4_097).err(),
        Some(Refusal::OutOfRange(4_097))
    );
    Ok(())
}
