//! The bytes of a field in a file, by its offset. What lies past the end of a file reads as 0.

ghost use Rattle.std.specs.Prelude.{◌≡◌, ◌+◌, ◌^◌, ◌<◌, ◌≤◌, ◌++◌, length, take, drop};
ghost use Rattle.files.specs.Fields.{bytes_at};

/// The bytes at an offset of a file that may end before them.
fn read_each<const N: usize>(file: &[u8], at: usize) -> [u8; N]
    requires { at + N < 2 ^ 64 }
    ensures { result ≡ bytes_at file.now at N }
{
    let mut bytes = [0; N];
    // One by one: a copy of those that are there is a call of `memcpy`, and the library for C would need it from outside.
    for i in 0..N {
        bytes[i] = file.get(at + i).copied().unwrap_or(0);
    }
    bytes
}

/// The bytes at an offset. Where all of them are there, one test is enough.
pub(crate) fn read<const N: usize>(file: &[u8], at: usize) -> [u8; N]
    requires { at + N < 2 ^ 64 }
    ensures { result ≡ bytes_at file.now at N }
{
    if at + N <= file.len() {
        *file[at..at + N].first_chunk().unwrap()
    } else {
        read_each(file, at)
    }
}

/// Writes bytes at an offset.
pub(crate) fn write<const N: usize>(out: &mut [u8], at: usize, bytes: [u8; N])
    requires { at + N ≤ length out.old }
    ensures { out.new ≡ take at out.old ++ bytes.entry ++ drop (at + N) out.old }
{
    out[at..at + N].copy_from_slice(&bytes);
}
