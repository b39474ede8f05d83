//! Gives a book a past, surveys it beside a pair of units, and prints what the survey finds.
#![tactic(auto)]

use anyhow::anyhow;
use books::{Book, Findings, survey};
use sources::Pair;
use std::io;
use tables::Refusal;

/// The units 5 and 12 with a table that is not theirs: the one of 5, 8 and 12.
const UNTRUE: &[u8] =
    b"RTB\x00\x01\x02\x00\x05\x00\x0c\x00\x00\x00\x00\x00\x00\x00\x10\x00\x00\x00\x0c\x00\x00\x00\x08\x00\x00\x00\x18";

/// A book of 5, 8 and 12, with a refused admit and a refused withdrawal in its past, from which 8 was withdrawn.
fn book_with_past(rt: &HostRuntime) -> Result<Book, Refusal> {
    let mut strip = [0; 5];
    let mut book = Book::open(rt.alloc(), 5)?;
    book.admit(12)?;
    book.admit(8)?;
    let _ = book.admit(5);
    let _ = book.withdraw(9, &mut strip);
    book.withdraw(8, &mut strip)?;
    Ok(book)
}

/// Prints what was found of the book and of the pair.
fn print_findings(rt: &HostRuntime, found: &Findings) -> io::Result<()> {
    let Findings {
        made,
        largest,
        gaps,
        shown,
        greatest,
        missing,
        restored,
    } = found;
    println!(rt; "load 34 of the units now admitted: {made:?}")?;
    println!(rt; "greatest load that they do not make: {largest:?}")?;
    println!(rt; "how many they do not make: {gaps:?}")?;
    println!(rt; "load 34 of the pair: {shown:?}")?;
    println!(rt; "greatest that the pair does not contain: {greatest:?}")?;
    println!(rt; "how many it does not contain: {missing:?}")?;
    println!(rt; "the file of another row's table: {restored:?}")
}

/// What the program reports of a call that is refused, whatever the reason.
fn refused(_reason: Refusal) -> anyhow::Error {
    anyhow!("a call was refused")
}

fn run(rt: &HostRuntime) -> anyhow::Result<()> {
    let mut book = book_with_past(rt).map_err(refused)?;
    let pair = Pair::new(5, 7).map_err(refused)?;
    let mut numbers = [0; 2];
    let mut places = [0; 2];
    let found = survey(
        &mut book,
        34,
        &mut numbers,
        &pair,
        &mut places,
        &pair,
        UNTRUE,
    );
    print_findings(rt, &found)?;
    println!(rt; "numbers of 5 and 12: {numbers:?}, of 5 and 7: {places:?}")?;
    Ok(())
}

fn main(rt: HostRuntime) -> anyhow::Result<()> {
    run(&rt)
}
