// A journal: a charging function that writes requests into lent bytes.
ghost use Rattle.std.specs.Prelude.{◌≡◌, ◌+◌, ◌≤◌, length};
ghost use Rattle.journal.specs.Layout.{most_bytes, entry_offset};

use crate::fault::*;
use crate::layout::*;
use crate::reader::*;
use crate::writing::*;
use entries::entry::*;
use entries::making::*;
use entries::profile::*;
use entries::taker::*;

#[derive(Drop)]
pub struct Journal<'a> {
    // lent, so that a charging function needs no heap
    bytes: &'a mut [u8],
    // how many were taken; the entries are both together
    requests: u32,
    containers: u32,
    profile: Profile<'a>,
    ghost short: { length bytes.now ≤ most_bytes },
    ghost within: { entry_offset (requests + containers) ≤ length bytes.now },
}

impl<'a> Journal<'a> {
    ghost use Rattle.journal.specs.Journals.{JournalMade, reading, Faithful};
    ghost use Rattle.journal.specs.Readers.{answer};

    // An empty journal over 16 to 1,048,576 lent bytes, with a profile of up to 32 overrides. The making writes the
    // header alone; a refused one writes nothing, and gives the bytes back.
    pub fn new(
        bytes: &'a mut [u8],
        overrides: &'a [Override],
    ) -> Result<Journal<'a>, Refused<Unmade, &'a mut [u8]>>
        ensures { JournalMade bytes.old overrides.now result }
    {
        // not map_err: its closure would keep the bytes from the making
        let profile = match lend(overrides, bytes.len(), HEADER_SIZE, MOST_BYTES) {
            Ok(profile) => profile,
            Err(why) => return Err(Refused { why, left: bytes }),
        };
        write_header(bytes, 0, 0);
        Ok(Journal {
            bytes,
            requests: 0,
            containers: 0,
            profile,
        })
    }

    // A reader of the entries taken.
    pub fn reader(&self) -> Result<Reader<'_>, Fault>
        ensures value { answer result ≡ reading self.now }
        ensures back { Faithful self.now (answer result) }
    {
        Reader::new(self.bytes)
    }
}

impl Taker for Journal<'_> {
    ghost use Rattle.journal.specs.Journals.{entries_of, places_left, Grown};

    ghost book = { entries_of };

    ghost room = { places_left };

    ghost took = { Grown };

    fn intake(&self) -> usize {
        let entries = self.requests as usize + self.containers as usize;
        (self.bytes.len() - entry_offset(entries)) / ENTRY_SIZE
    }

    fn take(&mut self, head: &Entry, containers: &[Entry]) -> Result<(), Declined> {
        admit(head, containers, self.intake())?;
        let requests = self.requests;
        let entries = requests + self.containers;
        write_request(self.bytes, entries, requests, head, containers);
        self.requests = requests + 1;
        self.containers += containers.len() as u32;
        Ok(())
    }
}

impl ChargingFunction for Journal<'_> {
    ghost use Rattle.journal.specs.Journals.{overrides_of};

    ghost profile = { overrides_of };

    fn override_at(&self, i: usize) -> Option<Override> {
        self.profile.get(i)
    }
}
