//! Prints the loads of two table sources, a pair of units and a source of this program's own, and those that they have in common.
#![tactic(auto)]

ghost use Rattle.std.specs.Prelude.{refl};
ghost use Rattle.common_loads.specs.Trios.{entries};
ghost use Rattle.tables.specs.Tables.{entry_of};
ghost use Rattle.tables.specs.Written.{written_lawful};

use sources::{Meet, Pair, Unequal};
use std::io;
use tables::{Entries, Refusal, Source, gaps, largest};

/// The units 5, 8 and 12, with their table written out.
// The tests have such a source too. It stands here since this program shows how one adds a source of one's own.
#[derive(Clone, Copy)]
struct Trio;

impl Entries for Trio {
    ghost modulus = { λ _. 5 };

    ghost entry = { λ _. entry_of entries };

    ghost past = { λ _. (written_lawful entries refl).past };

    fn base(&self) -> u32 {
        5
    }

    fn least(&self, remainder: u32) -> Option<u32> {
        match remainder {
            0 => Some(0),
            1 => Some(16),
            2 => Some(12),
            3 => Some(8),
            4 => Some(24),
            _ => None,
        }
    }
}

impl Source for Trio {
    // `refl` has the entries checked: each leaves its remainder, the first is 0, and they are few and small enough.
    ghost lawful = { λ _. written_lawful entries refl };
}

/// What ends the program early.
// An enum of this program's own and no `anyhow::Error`, which would print the same failures in other words.
#[derive(Debug, Drop)]
enum Failure {
    Refused(Refusal),
    Unwritten(io::Error),
}

impl From<Refusal> for Failure {
    fn from(reason: Refusal) -> Failure {
        Failure::Refused(reason)
    }
}

impl<A: Drop, B: Drop> From<Unequal<A, B>> for Failure {
    fn from(unequal: Unequal<A, B>) -> Failure {
        Failure::Refused(unequal.reason)
    }
}

impl From<io::Error> for Failure {
    fn from(e: io::Error) -> Failure {
        Failure::Unwritten(e)
    }
}

/// Prints the entry at each remainder by the base.
fn print_entries<S: Entries>(rt: &impl Print, source: &S) -> io::Result<()> {
    let base = source.base();
    print!(rt; "  the least of each remainder by {base}:")?;
    for remainder in 0..base {
        match source.least(remainder) {
            Some(load) => print!(rt; " {load}")?,
            None => print!(rt; " none")?,
        }
    }
    println!(rt; "")
}

/// Prints what there is to know of the loads of a source.
fn print_source<S: Source>(rt: &impl Print, label: &str, source: &S) -> Result<(), Failure> {
    println!(rt; "{label}:")?;
    print_entries(rt, source)?;
    let greatest = largest(source)?;
    println!(rt; "  the greatest that is missing: {greatest}")?;
    let count = gaps(source)?;
    println!(rt; "  how many are missing: {count}")?;
    Ok(())
}

/// Prints two sources, and then their meet, to which both are lent.
fn run(rt: &impl Print) -> Result<(), Failure> {
    let pair = Pair::new(5, 7)?;
    let trio = Trio;
    print_source(rt, "Loads of units 5 and 7", &pair)?;
    print_source(rt, "Loads of units 5, 8 and 12", &trio)?;
    let common = Meet::new(&pair, &trio)?;
    print_source(rt, "Loads of both", &common)
}

fn main(rt: HostRuntime) -> Result<(), Failure> {
    run(&rt)
}
