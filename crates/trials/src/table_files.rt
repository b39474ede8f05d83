//! Table files: those that are accepted, those that are refused, and making a load from one.

use crate::sample::Sample;
use files::{base, entry, judge, make_from, save, size, units};
use tables::Refusal;

/// The file of the row 5, 8, 12, with the entries 0, 16, 12, 8, 24.
const FILE: &[u8] =
    b"RTB\x00\x01\x03\x00\x05\x00\x08\x00\x0c\x00\x00\x00\x00\x00\x00\x00\x10\x00\x00\x00\x0c\x00\x00\x00\x08\x00\x00\x00\x18";

/// The verdict on the file with two bytes changed, from an offset on.
fn judge_changed(at: usize, bytes: [u8; 2]) -> Result<(), Refusal> {
    let mut file = [0; 32];
    file.copy_from_slice(FILE);
    if at < 31 {
        file[at] = bytes[0];
        file[at + 1] = bytes[1];
    }
    judge(&file)
}

/// The verdict on the file with these entries.
fn judge_entries(entries: [u32; 5]) -> Result<(), Refusal> {
    let mut file = [0; 32];
    file.copy_from_slice(FILE);
    for (field, entry) in file[12..].chunks_exact_mut(4).zip(entries) {
        field.copy_from_slice(&entry.to_be_bytes());
    }
    judge(&file)
}

#[test]
fn reads_file(rt: HostRuntime) {
    assert_eq!(rt; judge(FILE), Ok(()));
    assert_eq!(rt; units(FILE), 3);
    assert_eq!(rt; base(FILE), 5);
    assert_eq!(rt; size(FILE, 0), Some(5));
    assert_eq!(rt; size(FILE, 1), Some(8));
    assert_eq!(rt; size(FILE, 2), Some(12));
    assert_eq!(rt; size(FILE, 3), None);
    assert_eq!(rt; entry(FILE, 0), Some(0));
    assert_eq!(rt; entry(FILE, 4), Some(24));
    assert_eq!(rt; entry(FILE, 5), None);
}

#[test]
fn reads_any_bytes(rt: HostRuntime) {
    assert_eq!(rt; units(b""), 0);
    assert_eq!(rt; base(b""), 0);
    assert_eq!(rt; size(b"", 0), Some(0));
    assert_eq!(rt; size(b"", 1), None);
    assert_eq!(rt; entry(b"", 0), None);
    assert_eq!(rt; entry(b"RTB\x00\x01\x01\x00\x01\x00\x00\x01", 0), Some(256));
}

#[test]
fn accepts_files(rt: HostRuntime) {
    assert_eq!(rt; judge(b"RTB\x00\x01\x01\x00\x01\x00\x00\x00\x00"), Ok(()));
    assert_eq!(rt;
        judge(
            b"RTB\x00\x01\x01\x00\x05\x00\x00\x00\x00\xff\xff\xff\xff\xff\xff\xff\xff\xff\xff\xff\xff\xff\xff\xff\xff",
        ),
        Ok(())
    );
    assert_eq!(rt;
        judge(
            b"RTB\x00\x01\x02\x00\x06\x00\x09\x00\x00\x00\x00\xff\xff\xff\xff\xff\xff\xff\xff\x00\x00\x00\x09\xff\xff\xff\xff\xff\xff\xff\xff",
        ),
        Ok(())
    );
}

#[test]
fn refuses_every_cut(rt: HostRuntime) {
    for length in 0..32 {
        assert_eq!(rt; judge(&FILE[0..length]), Err(Refusal::Malformed(length)));
    }
    let mut longer = [0; 33];
    longer[0..32].copy_from_slice(FILE);
    assert_eq!(rt; judge(&longer), Err(Refusal::Malformed(32)));
}

#[test]
fn refuses_cut_fields_unjudged(rt: HostRuntime) {
    assert_eq!(rt; judge(b"RT"), Err(Refusal::Malformed(2)));
    assert_eq!(rt; judge(b"XT"), Err(Refusal::Malformed(2)));
    assert_eq!(rt; judge(b"RTB\x00"), Err(Refusal::Malformed(4)));
    assert_eq!(rt; judge(b"RTB\x00\x02"), Err(Refusal::Malformed(3)));
}

#[test]
fn refuses_fields(rt: HostRuntime) {
    assert_eq!(rt; judge_changed(2, [0x62, 0]), Err(Refusal::Malformed(0)));
    assert_eq!(rt; judge_changed(3, [1, 0]), Err(Refusal::Malformed(3)));
    assert_eq!(rt; judge_changed(5, [0, 0]), Err(Refusal::Malformed(5)));
    assert_eq!(rt; judge_changed(5, [17, 0]), Err(Refusal::Malformed(5)));
    assert_eq!(rt; judge_changed(6, [0, 0]), Err(Refusal::Malformed(6)));
    assert_eq!(rt; judge_changed(6, [16, 1]), Err(Refusal::Malformed(6)));
    assert_eq!(rt; judge_changed(8, [0, 0]), Err(Refusal::Malformed(8)));
    assert_eq!(rt; judge_changed(8, [0, 5]), Err(Refusal::Malformed(8)));
    assert_eq!(rt; judge_changed(8, [0, 12]), Err(Refusal::Malformed(10)));
    assert_eq!(rt; judge_changed(10, [0, 8]), Err(Refusal::Malformed(10)));
    assert_eq!(rt; judge_changed(5, [4, 0]), Err(Refusal::Malformed(12)));
    assert_eq!(rt; judge_changed(5, [2, 0]), Err(Refusal::Malformed(30)));
    assert_eq!(rt; judge_changed(6, [0, 6]), Err(Refusal::Malformed(32)));
}

#[test]
fn refuses_untrue_entries(rt: HostRuntime) {
    let absent = 4_294_967_295;
    assert_eq!(rt;
        judge(
            b"RTB\x00\x01\x02\x00\x05\x00\x0c\x00\x00\x00\x00\x00\x00\x00\x10\x00\x00\x00\x0c\x00\x00\x00\x08\x00\x00\x00\x18",
        ),
        Err(Refusal::Untrue(1))
    );
    assert_eq!(rt; judge_entries([0, 16, 12, 8, 24]), Ok(()));
    assert_eq!(rt; judge_entries([0, 36, 12, 48, 24]), Err(Refusal::Untrue(0)));
    assert_eq!(rt; judge_entries([0, 1, 2, 3, 4]), Err(Refusal::Untrue(1)));
    assert_eq!(rt; judge_entries([5, 16, 12, 8, 24]), Err(Refusal::Untrue(0)));
    assert_eq!(rt;
        judge_entries([absent, 16, 12, 8, 24]),
        Err(Refusal::Untrue(0))
    );
    assert_eq!(rt;
        judge_entries([0, 16, 12, 8, absent]),
        Err(Refusal::Untrue(1))
    );
    assert_eq!(rt; judge_entries([0, 16, 12, 8, 29]), Err(Refusal::Untrue(1)));
    assert_eq!(rt; judge_entries([0, 16, 12, 8, 23]), Err(Refusal::Untrue(4)));
    assert_eq!(rt; judge_entries([0, 16, 12, 8, 19]), Err(Refusal::Untrue(4)));
}

#[test]
fn makes_from_file(rt: HostRuntime) {
    let mut numbers = [7; 4];
    assert_eq!(rt; make_from(FILE, 24, &mut numbers), Ok(3));
    assert_eq!(rt; numbers, [0, 3, 0, 7]);
}

#[test]
fn refuses_to_make_from_file(rt: HostRuntime) {
    let mut numbers = [7; 3];
    assert_eq!(rt;
        make_from(FILE, 7, &mut numbers),
        Err(Refusal::Unmakeable(2))
    );
    assert_eq!(rt;
        make_from(b"RT", 24, &mut numbers),
        Err(Refusal::Malformed(2))
    );
    assert_eq!(rt; numbers, [7, 7, 7]);
    let mut short = [7; 2];
    assert_eq!(rt; make_from(FILE, 24, &mut short), Err(Refusal::NoRoom(3)));
    assert_eq!(rt; short, [7, 7]);
}

#[test]
fn saves_file(rt: HostRuntime) {
    let mut out = [7; 34];
    assert_eq!(rt; save(&Sample, &mut out), Ok(32));
    assert!(rt; &out[0..32] == FILE);
    assert!(rt; &out[32..34] == b"\x07\x07".as_slice());
}

#[test]
fn refuses_to_save_in_short_memory(rt: HostRuntime) {
    let mut out = [7; 31];
    assert_eq!(rt; save(&Sample, &mut out), Err(Refusal::NoRoom(32)));
    assert_eq!(rt; out, [7; 31]);
}

#[test]
fn refuses_every_damaged_byte(rt: HostRuntime) {
    for at in 0..32 {
        let mut file = [0; 32];
        file.copy_from_slice(FILE);
        file[at] ^= 1;
        assert!(rt; judge(&file).is_err());
        file[at] ^= 129;
        assert!(rt; judge(&file).is_err());
    }
}
