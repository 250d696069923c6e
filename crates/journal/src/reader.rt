// A reader of a journal's bytes.
ghost use Rattle.std.specs.Prelude.{◌≡◌, ◌<◌, ◌^◌, length, map};
ghost use Rattle.std.specs.Iterator.{YieldsFirst, item_count};
ghost use Rattle.entries.specs.Sequences.{requests_in};
ghost use Rattle.journal.specs.Layout.{entry_of};
ghost use Rattle.journal.specs.Reading.{placed, read, Meant, Complete};
ghost use Rattle.journal.specs.Readers.{shown, left_of, answer, entry_at};

use crate::fault::*;
use crate::layout::*;
use entries::entry::*;
use entries::sequence::*;

// How many requests the entries are, or the first entry at which they stop being requests. The loop is that of
// count_requests: one for both would take a closure that reads an entry, and is no plainer.
fn check_entries(entries: &[[u8; ENTRY_SIZE]]) -> Result<usize, Fault>
    requires { length entries.now < 2 ^ 33 }
    ensures { result ≡ placed (requests_in (map entry_of entries.now)) }
{
    let mut sequence = Sequence::of(entries.len());
    for (i, bytes) in entries.iter().enumerate() {
        if !sequence.accept(&read_entry(bytes)) {
            return Err(Fault::Form(entry_offset(i)));
        }
    }
    Ok(sequence.requests)
}

// The bytes of each entry.
#[derive(Drop)]
pub struct Reader<'a> {
    entries: &'a [[u8; ENTRY_SIZE]],
}

// A reader of the entries alone, where header and entries are those of a journal.
#[tactic(auto, unfolding(crate::specs::Reading::read))]
fn open_bytes(bytes: &[u8]) -> Result<Reader<'_>, Fault>
    ensures { answer result ≡ read bytes.now }
{
    let length = bytes.len();
    if length < HEADER_SIZE || length > MOST_BYTES {
        return Err(Fault::Length(length));
    }
    let header = read_header(bytes);
    let free = header.free as usize;
    if free != entry_offset(header.entries as usize) || free > length {
        return Err(Fault::FreeOffset);
    }
    if header.spare != SPARE {
        return Err(Fault::Spare);
    }
    let (entries, _) = bytes[HEADER_SIZE..free].as_chunks();
    let requests = check_entries(entries)?;
    if requests != header.requests as usize {
        return Err(Fault::RequestCount);
    }
    Ok(Reader { entries })
}

impl<'a> Reader<'a> {
    // A reader of any bytes, or what is wrong with them.
    pub fn new(bytes: &'a [u8]) -> Result<Reader<'a>, Fault>
        ensures value { answer result ≡ read bytes.now }
        ensures meaning { Meant bytes.now (answer result) }
        ensures complete { Complete bytes.now (answer result) }
    {
        open_bytes(bytes)
    }

    // The entries, one after the other.
    pub fn entries(&self) -> Entries<'a>
        ensures { left_of result ≡ shown self.now }
    {
        Entries { rest: self.entries }
    }

    // How many entries there are.
    pub fn count(&self) -> usize
        ensures { result ≡ length (shown self.now) }
    {
        self.entries.len()
    }

    // The entry of that index, refused past the last one.
    pub fn entry(&self, i: usize) -> Result<Entry, PastEnd>
        ensures { result ≡ entry_at (shown self.now) i }
    {
        self.entries.get(i).map(read_entry).ok_or(PastEnd)
    }
}

// The entries that a reader shows, from one on.
#[derive(Drop)]
pub struct Entries<'a> {
    rest: &'a [[u8; ENTRY_SIZE]],
}

impl Iterator for Entries<'_> {
    type Item = Entry;

    ghost next_gives = { YieldsFirst left_of };

    ghost remaining = { item_count left_of };

    fn next(&mut self) -> Option<Entry> {
        let (first, rest) = self.rest.split_first()?;
        self.rest = rest;
        Some(read_entry(first))
    }
}
