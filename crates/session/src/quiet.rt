// Usage reports that meet no limit while nothing is due: nothing closes, so they are counted in place. They are most of the
// calls on a session; all others go by a decision.
ghost use Rattle.std.specs.Prelude.{◌≡◌, ℕ, ◌<◌, true, false, IfSome, Some, vec_len};
ghost use Rattle.session.specs.declared.event.Event.TheVariants.{Usage as Reporting};
ghost use Rattle.session.specs.declared.state.Phase.TheVariants.{Open as OpenPhase};
ghost use Rattle.session.specs.Deciding.{decide};
ghost use Rattle.session.specs.Performing.{reporting};
ghost use Rattle.session.specs.Quiet.{Quiet, quietly};
ghost use Rattle.session.specs.View.{view};

use crate::event::*;
use crate::ledger::*;
use crate::state::*;
use entries::key::LineId;
use entries::trigger::*;

impl Ledger {
    // The place of the line that a report is counted on, if it is quiet.
    fn quiet_place(&self, id: LineId, volume: Volume, t: u32) -> Option<usize>
        ensures quiet { IfSome result (λ i. Quiet (view self.now) id volume.up volume.down t i) }
        ensures inside { IfSome result (λ i. i < vec_len self.now.lines) }
    {
        if t < self.last || self.report_waits() {
            return None;
        }
        let i = self.place(id)?;
        let line = self.line(i);
        if !line.active {
            return None;
        }
        let line = line.count(volume);
        if line.is_over_total()
            || self.is_met(Trigger::SessionVolume, self.volume_sum(volume))
            || self.is_met(Trigger::LineVolume, line.open_octets())
        {
            return None;
        }
        Some(i)
    }

    // Counts a report on an open session if it is quiet.
    fn count_quiet(&mut self, id: LineId, volume: Volume, t: u32) -> bool
        requires { self.old.marks.phase ≡ OpenPhase }
        ensures done { result ≡ true → ((intake : ℕ) → reporting (view self.old) t intake (decide (view self.old) (Reporting (Some id) volume.up volume.down) 0 t) ≡ quietly (view self.new)) }
        ensures left { result ≡ false → self.new ≡ self.old }
    {
        let Some(i) = self.quiet_place(id, volume, t) else {
            return false;
        };
        let line = self.line(i).count(volume);
        let sum = self.volume_sum(volume);
        self.lines[i] = line;
        self.marks.volume = sum;
        self.last = t;
        true
    }

    // Carries a call out if it is a quiet report on an open session; false, with nothing changed, if it is any other.
    pub(crate) fn count_if_quiet(&mut self, event: Event<Option<LineId>>, t: u32) -> bool
        ensures done { result ≡ true → ((intake : ℕ) → reporting (view self.old) t intake (decide (view self.old) event 0 t) ≡ quietly (view self.new)) }
        ensures left { result ≡ false → self.new ≡ self.old }
    {
        match (self.marks.phase, event) {
            (Phase::Open, Event::Usage(Some(id), up, down)) => self.count_quiet(
                id,
                Volume { up, down },
                t,
            ),
            _ => false,
        }
    }
}
