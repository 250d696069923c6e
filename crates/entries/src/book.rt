// A book: a charging function that writes requests into a lent table of entries.
ghost use Rattle.std.specs.Prelude.{◌≡◌, ◌+◌, ◌≤◌, ◌∷◌, length};
ghost use Rattle.entries.specs.Written.{written};

use crate::entry::*;
use crate::making::*;
use crate::profile::*;
use crate::taker::*;

// The most entries of a lent table.
pub const MOST_ENTRIES: usize = 4096;

#[derive(Drop)]
pub struct Book<'a> {
    // lent, so that a charging function needs no heap; the entries taken are its first
    table: &'a mut [Entry],
    used: usize,
    profile: Profile<'a>,
    ghost within: { used ≤ length table.now },
}

// Writes a head and its containers from a place on.
fn write_request(table: &mut [Entry], at: usize, head: &Entry, containers: &[Entry])
    requires { at + (length containers.now + 1) ≤ length table.old }
    ensures { table.new ≡ written table.old at (head.now ∷ containers.now) }
{
    table[at] = *head;
    table[at + 1..at + 1 + containers.len()].copy_from_slice(containers);
}

impl<'a> Book<'a> {
    ghost use Rattle.entries.specs.Books.{entries_of, BookMade};

    // An empty book over a lent table of up to 4,096 entries, with a profile of up to 32 overrides. The making writes
    // nothing.
    pub fn new(
        table: &'a mut [Entry],
        overrides: &'a [Override],
    ) -> Result<Book<'a>, Refused<Unmade, &'a mut [Entry]>>
        ensures { BookMade table.old overrides.now result }
    {
        // a closure for `map_err` would hold the lent table
        match lend(overrides, table.len(), 0, MOST_ENTRIES) {
            Ok(profile) => Ok(Book {
                table,
                used: 0,
                profile,
            }),
            Err(why) => Err(Refused { why, left: table }),
        }
    }

    // The entries taken.
    pub fn entries(&self) -> &[Entry]
        ensures { result.now ≡ entries_of self.now }
    {
        &self.table[..self.used]
    }
}

impl Taker for Book<'_> {
    ghost use Rattle.entries.specs.Books.{entries_of, places_left, Grown};

    ghost book = { entries_of };

    ghost room = { places_left };

    ghost took = { Grown };

    fn intake(&self) -> usize {
        self.table.len() - self.used
    }

    fn take(&mut self, head: &Entry, containers: &[Entry]) -> Result<(), Declined> {
        admit(head, containers, self.intake())?;
        write_request(self.table, self.used, head, containers);
        self.used += containers.len() + 1;
        Ok(())
    }
}

impl ChargingFunction for Book<'_> {
    ghost use Rattle.entries.specs.Books.{overrides_of};

    ghost profile = { overrides_of };

    fn override_at(&self, i: usize) -> Option<Override> {
        self.profile.get(i)
    }
}
