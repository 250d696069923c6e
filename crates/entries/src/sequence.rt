// Sequences of requests: whether entries are well-formed requests, one after the other.
ghost use Rattle.std.specs.Prelude.{◌≡◌, ◌+◌, ◌-◌, ◌≤◌, ℕ, true, false, Result as Outcome};
ghost use Rattle.entries.specs.Sequences.{begins_request, goes_on, due_after, begun_with, requests_in, Judged};

use crate::entry::*;
use crate::request::*;

// Whether an entry may begin a request, with so many entries left behind it.
pub fn begins_request(e: &Entry, left: usize) -> bool
    ensures { result ≡ begins_request e.now left }
{
    let n = e.number as usize;
    n <= MOST_CONTAINERS && n <= left && head_formed(e, n)
}

// Whether an entry goes on with a sequence in which so many containers are due.
pub fn goes_on(due: u32, e: &Entry, left: usize) -> bool
    ensures { result ≡ goes_on due e.now left }
{
    if due == 0 {
        begins_request(e, left)
    } else {
        container_formed(e)
    }
}

// The containers due behind it.
pub fn due_after(due: u32, e: &Entry) -> u32
    ensures { result ≡ due_after due e.now }
{
    if due == 0 { e.number } else { due - 1 }
}

// How far entries are known to be requests: so many are left, so many containers are due, so many requests are begun.
#[derive(Clone, Copy)]
pub struct Sequence {
    pub left: usize,
    pub due: u32,
    pub requests: usize,
    ghost few: { requests + left ≤ 18446744073709551615 },
}

impl Sequence {
    // A sequence of so many entries, before the first.
    pub fn of(entries: usize) -> Sequence
        ensures left { result.left ≡ entries }
        ensures due { result.due ≡ 0 }
        ensures requests { result.requests ≡ 0 }
    {
        Sequence {
            left: entries,
            due: 0,
            requests: 0,
        }
    }

    // Whether the next entry goes on with the sequence, which it leaves as it is where not.
    pub fn accept(&mut self, e: &Entry) -> bool
        ensures goes_on { 1 ≤ self.old.left → result ≡ goes_on self.old.due e.now (self.old.left - 1) }
        ensures left { result ≡ true → self.old.left ≡ self.new.left + 1 }
        ensures due { result ≡ true → self.new.due ≡ due_after self.old.due e.now }
        ensures requests { result ≡ true → self.new.requests ≡ begun_with self.old.due self.old.requests }
        ensures stays { result ≡ false → self.new ≡ self.old }
    {
        let Some(left) = self.left.checked_sub(1) else {
            return false;
        };
        if self.due > 0 {
            if !container_formed(e) {
                return false;
            }
            self.due -= 1;
        } else {
            if !begins_request(e, left) {
                return false;
            }
            self.due = e.number;
            self.requests += 1;
        }
        self.left = left;
        true
    }
}

// How many requests the entries are, or the index of the first entry at which they stop being requests.
pub fn count_requests(entries: &[Entry]) -> Result<usize, usize>
    ensures value { result ≡ requests_in entries.now }
    ensures meaning { Judged entries.now result }
    ensures only { (s : Outcome ℕ ℕ) → Judged entries.now s → s ≡ result }
{
    let mut sequence = Sequence::of(entries.len());
    for (i, e) in entries.iter().enumerate() {
        if !sequence.accept(e) {
            return Err(i);
        }
    }
    Ok(sequence.requests)
}
