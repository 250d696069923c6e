// Parts of a list of bytes, such as a number or an entry.
ghost use Rattle.std.specs.Prelude.{◌≡◌, ◌+◌, ◌≤◌, length, take, drop};
ghost use Rattle.entries.specs.Written.{written};

// Writes the part that begins at `at`.
pub(crate) fn put<const N: usize>(out: &mut [u8], at: usize, bytes: [u8; N])
    requires { at + N ≤ length out.old }
    ensures { out.new ≡ written out.old at bytes.entry }
{
    out[at..at + N].copy_from_slice(&bytes);
}

// The part of N bytes that begins at `at`.
pub(crate) fn get<const N: usize>(bytes: &[u8], at: usize) -> [u8; N]
    requires { at + N ≤ length bytes.now }
    ensures { result ≡ take N (drop at bytes.now) }
{
    *bytes[at..].first_chunk().unwrap()
}
