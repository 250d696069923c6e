// A link to a charging function: while it is down, nothing is taken.
ghost use Rattle.std.specs.Prelude.{◌≡◌, true, if◌then◌else◌};

use crate::entry::*;
use crate::taker::*;

#[derive(Drop)]
pub struct Link<F> {
    // there whether the link is up or not
    below: F,
    up: bool,
}

impl<F> Link<F> {
    // A link that is up.
    pub fn new(below: F) -> Link<F>
        ensures { result ≡ record { below = below; up = true } }
    {
        Link { below, up: true }
    }

    // What is behind the link.
    pub fn below(&self) -> &F
        ensures { result.now ≡ self.now.below }
    {
        &self.below
    }

    // Tells the link that it is up, or down.
    pub fn set_up(&mut self, up: bool)
        ensures { self.new ≡ record { below = self.old.below; up = up } }
    {
        self.up = up;
    }
}

impl<F: Taker> Taker for Link<F> {
    ghost book = { λ s. F.Taker.book s.below };

    ghost room = { λ s. (if s.up then F.Taker.room s.below else 0) };

    ghost took = { λ before head containers after. F.Taker.took before.below head containers after.below × (after.up ≡ before.up) };

    fn intake(&self) -> usize {
        if self.up { self.below.intake() } else { 0 }
    }

    fn take(&mut self, head: &Entry, containers: &[Entry]) -> Result<(), Declined> {
        if self.up {
            return self.below.take(head, containers);
        }
        admit(head, containers, 0)
    }
}

impl<F: ChargingFunction> ChargingFunction for Link<F> {
    ghost profile = { λ s. F.ChargingFunction.profile s.below };

    fn override_at(&self, i: usize) -> Option<Override> {
        self.below.override_at(i)
    }
}
