// What is written into the bytes of a journal.
ghost use Rattle.std.specs.Prelude.{◌≡◌, ◌+◌, ◌*◌, ◌≤◌, ◌∷◌, length};
ghost use Rattle.std.specs.List.{AllByRecursion};
ghost use Rattle.entries.specs.Written.{written};
ghost use Rattle.journal.specs.Layout.{entry_size, most_bytes, entry_offset, EntryFits, all_bytes, grown};

use crate::codec::*;
use crate::layout::*;
use entries::entry::*;

// Writes entries one after the other, from the place `at` on.
fn write_entries(bytes: &mut [u8], at: usize, es: &[Entry])
    requires { at + entry_size * length es.now ≤ length bytes.old }
    ensures bytes { bytes.new ≡ written bytes.old at (all_bytes es.now) }
    ensures fits { AllByRecursion EntryFits es.now }
{
    // of chunks to be written a proof would know the lengths alone
    for (i, e) in es.iter().enumerate() {
        put(bytes, at + ENTRY_SIZE * i, entry_bytes(*e));
    }
}

// Writes a request behind the entries that a journal has, and then the header.
pub(crate) fn write_request(
    bytes: &mut [u8],
    entries: u32,
    requests: u32,
    head: &Entry,
    containers: &[Entry],
)
    requires requests_le_entries { requests ≤ entries }
    requires containers_in_bounds { entry_offset entries + entry_size * (length containers.now + 1) ≤ length bytes.old }
    requires bytes_len_bound { length bytes.old ≤ most_bytes }
    ensures bytes { bytes.new ≡ grown bytes.old entries requests (head.now ∷ containers.now) }
    ensures fits { AllByRecursion EntryFits (head.now ∷ containers.now) }
{
    let free = entry_offset(entries as usize);
    put(bytes, free, entry_bytes(*head));
    write_entries(bytes, free + ENTRY_SIZE, containers);
    write_header(bytes, entries + (containers.len() as u32 + 1), requests + 1);
}
