//! Lines that are read, and the columns at which others are refused.

use lines::{Line, read};
use tables::Refusal;

#[test]
fn readable(rt: HostRuntime) {
    let cases = [
        ("B 5\n", Line::Open(5)),
        ("B 0\n", Line::Open(0)),
        ("B 4294967295\n", Line::Open(4294967295)),
        ("A 65536\n", Line::Admit(65536)),
        ("W 8\n", Line::Withdraw(8)),
        ("M 1000000001\n", Line::Make(1000000001)),
        ("L\n", Line::Largest),
        ("G\n", Line::Gaps),
    ];
    for (text, line) in cases {
        assert_eq!(rt; read(text.as_bytes()), Ok(line), "{}", text);
    }
}

#[test]
fn unreadable(rt: HostRuntime) {
    let cases = [
        ("", 1),
        ("X\n", 1),
        ("\n", 1),
        ("B\n", 2),
        ("B5\n", 2),
        ("B  5\n", 3),
        ("B 05\n", 4),
        ("B 4294967296\n", 12),
        ("B 99999999999\n", 12),
        ("B 5 \n", 4),
        ("B 5", 4),
        ("B 5\n\n", 5),
        ("L \n", 2),
        ("L", 2),
        ("b 5\n", 1),
        ("A\n", 2),
        ("M 5x\n", 4),
        ("T 5\n", 1),
    ];
    for (text, column) in cases {
        assert_eq!(rt;
            read(text.as_bytes()),
            Err(Refusal::Unreadable(column)),
            "{}",
            text
        );
    }
}
