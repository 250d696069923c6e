// The layout of a journal: where its numbers stand, and how entries and header are written and read.
ghost use Rattle.std.specs.Prelude.{◌≡◌, ◌+◌, ◌^◌, ◌<◌, ◌≤◌, length};
ghost use Rattle.entries.specs.Written.{written};
ghost use Rattle.journal.specs.Layout.{entry_size, header_size, entry_offset, entry_bytes, entry_of, EntryFits, header_bytes, word, entries_at, requests_at, free_at, spare_at};

use crate::codec::*;
use entries::entry::*;

// The fewest and the most bytes of a journal.
pub const HEADER_SIZE: usize = 16;

pub const MOST_BYTES: usize = 1_048_576;

// Where the numbers of the header begin.
pub const ENTRIES_AT: usize = 0;

pub const REQUESTS_AT: usize = 4;

pub const FREE_AT: usize = 8;

pub const SPARE_AT: usize = 12;

// What the last number of the header is.
pub const SPARE: u32 = 0;

// The bytes of an entry, and where its fields begin.
pub const ENTRY_SIZE: usize = 40;

const KIND_AT: usize = 0;

const CAUSE_AT: usize = 1;

const PERIOD_AT: usize = 2;

const NUMBER_AT: usize = 4;

const FROM_AT: usize = 8;

const TO_AT: usize = 12;

const CODE_AT: usize = 16;

const UPLINK_AT: usize = 24;

const DOWNLINK_AT: usize = 32;

// Where the entry of an index begins; for the number of entries, the free offset. Two 32-bit counts added up are within
// its reach.
pub(crate) fn entry_offset(index: usize) -> usize
    requires { index < 2 ^ 33 }
    ensures { result ≡ entry_offset index }
{
    HEADER_SIZE + ENTRY_SIZE * index
}

// The bytes of an entry.
#[tactic(auto, unfolding(crate::specs::Layout::EntryFits))]
pub(crate) fn entry_bytes(e: Entry) -> [u8; ENTRY_SIZE]
    ensures bytes { result ≡ entry_bytes e }
    ensures fits { EntryFits e }
{
    let mut bytes = [0; ENTRY_SIZE];
    put(&mut bytes, KIND_AT, e.kind.to_be_bytes());
    put(&mut bytes, CAUSE_AT, e.cause.to_be_bytes());
    put(&mut bytes, PERIOD_AT, e.period.to_be_bytes());
    put(&mut bytes, NUMBER_AT, e.number.to_be_bytes());
    put(&mut bytes, FROM_AT, e.from.to_be_bytes());
    put(&mut bytes, TO_AT, e.to.to_be_bytes());
    put(&mut bytes, CODE_AT, e.code.to_be_bytes());
    put(&mut bytes, UPLINK_AT, e.uplink.0.to_be_bytes());
    put(&mut bytes, DOWNLINK_AT, e.downlink.0.to_be_bytes());
    bytes
}

// The entry that bytes write.
pub(crate) fn read_entry(bytes: &[u8; ENTRY_SIZE]) -> Entry
    ensures { result ≡ entry_of bytes.now }
{
    Entry {
        kind: u8::from_be_bytes(get(bytes, KIND_AT)),
        cause: u8::from_be_bytes(get(bytes, CAUSE_AT)),
        period: u16::from_be_bytes(get(bytes, PERIOD_AT)),
        number: u32::from_be_bytes(get(bytes, NUMBER_AT)),
        from: u32::from_be_bytes(get(bytes, FROM_AT)),
        to: u32::from_be_bytes(get(bytes, TO_AT)),
        code: u64::from_be_bytes(get(bytes, CODE_AT)),
        uplink: Uplink(u64::from_be_bytes(get(bytes, UPLINK_AT))),
        downlink: Downlink(u64::from_be_bytes(get(bytes, DOWNLINK_AT))),
    }
}

// The numbers of the header.
#[derive(Clone, Copy)]
pub(crate) struct Header {
    pub(crate) entries: u32,
    pub(crate) requests: u32,
    pub(crate) free: u32,
    pub(crate) spare: u32,
}

// Writes the header of so many entries and requests.
pub(crate) fn write_header(bytes: &mut [u8], entries: u32, requests: u32)
    requires header_size_in_bounds { header_size ≤ length bytes.old }
    requires entries_bound { entry_offset entries < 2 ^ 32 }
    ensures { bytes.new ≡ written bytes.old 0 (header_bytes entries requests) }
{
    let free = entry_offset(entries as usize) as u32;
    put(bytes, ENTRIES_AT, entries.to_be_bytes());
    put(bytes, REQUESTS_AT, requests.to_be_bytes());
    put(bytes, FREE_AT, free.to_be_bytes());
    put(bytes, SPARE_AT, SPARE.to_be_bytes());
}

// The header at the beginning of `bytes`.
pub(crate) fn read_header(bytes: &[u8]) -> Header
    requires { header_size ≤ length bytes.now }
    ensures entries { result.entries ≡ word entries_at bytes.now }
    ensures requests { result.requests ≡ word requests_at bytes.now }
    ensures free { result.free ≡ word free_at bytes.now }
    ensures spare { result.spare ≡ word spare_at bytes.now }
{
    Header {
        entries: u32::from_be_bytes(get(bytes, ENTRIES_AT)),
        requests: u32::from_be_bytes(get(bytes, REQUESTS_AT)),
        free: u32::from_be_bytes(get(bytes, FREE_AT)),
        spare: u32::from_be_bytes(get(bytes, SPARE_AT)),
    }
}
