//! The day sheet program: reads a sheet on standard input and prints what each of its lines answers.
#![tactic(auto)]

use sheets::{LONGEST, answer_sheet};
use std::io;
use std::io::{Read, Write};

/// Reads standard input, of which one byte more than a sheet may have is enough to refuse it.
fn read_sheet(rt: &(impl Input + AllocGlobal)) -> io::Result<Vec<u8>> {
    let mut input = Vec::new(rt.alloc());
    rt.reader()
        .take(LONGEST as u64 + 1)
        .read_to_end(&mut input)?;
    Ok(input)
}

fn run(rt: &(impl Input + Print + AllocGlobal)) -> anyhow::Result<()> {
    let input = read_sheet(rt)?;
    let out = answer_sheet(rt.alloc(), input.as_slice())?;
    io::writer(rt).write_all(out.as_bytes())?;
    Ok(())
}

fn main(rt: HostRuntime) -> anyhow::Result<()> {
    run(&rt)
}
