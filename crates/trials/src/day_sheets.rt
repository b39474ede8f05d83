//! Day sheets and what they print.

use sheets::{LONGEST, answer_sheet};
use std::process::Abort;
use std::test::Fail;
use tables::Refusal;

/// Whether a sheet prints this text.
fn prints(rt: &(impl Abort + AllocGlobal), sheet: &[u8], text: &str) -> Result<(), Fail> {
    let out = answer_sheet(rt.alloc(), sheet)?;
    assert_eq!(rt; out.as_str(), text);
    Ok(())
}

#[test]
fn the_sheet_of_the_guide(rt: HostRuntime) -> Result<(), Fail> {
    prints(
        &rt,
        b"B 1\nL\nG\nB 5\nL\nB 0\n",
        "1 ok\n2 -1\n3 0\n4 ok\n5 no 7 1\n6 no 1 0\n",
    )
}

#[test]
fn units_are_admitted_and_loads_made(rt: HostRuntime) -> Result<(), Fail> {
    prints(
        &rt,
        b"B 5\nA 8\nA 12\nL\nG\nM 24\nM 19\n",
        "1 ok\n2 ok\n3 ok\n4 19\n5 10\n6 0 3 0\n7 no 6 4\n",
    )?;
    prints(
        &rt,
        b"A 8\nM 5\nB 5\nA 5\nA 65536\nA 8\nA 8\nM 1000000001\nB 7\nM 8\n",
        "1 no 17 0\n2 no 17 0\n3 ok\n4 no 2 5\n5 no 1 65536\n6 ok\n7 no 2 8\n8 no 10 1000000000\n9 ok\n10 no 6 1\n",
    )
}

#[test]
fn units_are_withdrawn(rt: HostRuntime) -> Result<(), Fail> {
    prints(
        &rt,
        b"B 5\nA 8\nA 12\nW 8\nL\nG\nM 16\n",
        "1 ok\n2 ok\n3 ok\n4 ok\n5 43\n6 22\n7 no 6 1\n",
    )?;
    prints(
        &rt,
        b"W 8\nB 4096\nA 65535\nW 4096\nW 7\nW 65535\nW 65535\n",
        "1 no 17 0\n2 ok\n3 ok\n4 no 5 4096\n5 no 4 7\n6 ok\n7 no 4 65535\n",
    )
}

#[test]
fn no_line_loses_the_book(rt: HostRuntime) -> Result<(), Fail> {
    prints(
        &rt,
        b"L\nB 0\nG\nX\nB 1\nB 4097\nB 05\n\nL",
        "1 no 17 0\n2 no 1 0\n3 no 17 0\n4 no 16 1\n5 ok\n6 no 1 4097\n7 no 16 4\n8 no 16 1\n9 no 16 2\n",
    )?;
    prints(
        &rt,
        b"B 1\nB 0\nX\nL\n",
        "1 ok\n2 no 1 0\n3 no 16 1\n4 -1\n",
    )
}

#[test]
fn sheets_refused_as_a_whole(rt: HostRuntime) -> Result<(), Fail> {
    prints(&rt, b"", "0 no 16 1\n")?;
    let mut long = vec![in rt.alloc(); b'L'; LONGEST]?;
    prints(&rt, long.as_slice(), "1 no 16 2\n")?;
    long.push(b'\n')?;
    prints(&rt, long.as_slice(), "0 no 8 65536\n")
}
