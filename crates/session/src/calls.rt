// Calls on a session without its method: each is decided, then performed, then reported. A refused call changes nothing.
ghost use Rattle.std.specs.Prelude.{◌≡◌, ◌≤◌, false, is_ok, Ok};
ghost use Rattle.session.specs.declared.event.Event.TheVariants.{Open as Opening, Finish as Finishing, Shelve as Shelving};
ghost use Rattle.session.specs.Deciding.{decide};
ghost use Rattle.session.specs.Fit.{Fit, Known};
ghost use Rattle.session.specs.Performing.{closed_by, opened, opening, reporting, finishing, shelving};
ghost use Rattle.session.specs.Taking.{Comes};
ghost use Rattle.session.specs.View.{view};

use crate::answer::*;
use crate::event::Event;
use crate::ledger::*;
use crate::profile::apply;
use crate::state::*;
use entries::entry::Kind;
use entries::key::LineId;
use entries::method::Method;
use entries::taker::*;

// The answer to a call that closes nothing and makes nothing due.
const NOTHING_CLOSED: Reported = Reported {
    closed: 0,
    due: Due::Nothing,
};

impl Ledger {
    // Applies the profile and hands over the Initial, to a function whose intake suffices.
    pub(crate) fn open<M: Method, F: ChargingFunction>(
        &mut self,
        method: &M,
        t: u32,
        function: &mut F,
    ) -> Result<Opened, Refusal>
        ensures comes { Comes (opening M.Method.column (F.ChargingFunction.profile function.old) (view self.old) t (F.Taker.room function.old) (decide (view self.old) Opening 0 t)) result (view self.new) F.Taker.book F.Taker.took function.old function.new }
        ensures refused { is_ok result ≡ false → (self.new ≡ self.old) × (function.new ≡ function.old) }
    {
        let act = self.decide(Event::Open, 0, t)?;
        if function.intake() < 1 {
            return Err(Refusal::IntakeTooSmall);
        }
        let head = self.head(Kind::Initial, 0, 0, t);
        self.perform(act, t);
        let opened = apply(method, function, &mut self.settings);
        let _ = function.take(&head, &[]);
        Ok(opened)
    }

    // Decides a call, performs it and reports, unless there is no place for its containers.
    fn carry_out<T: Taker>(
        &mut self,
        event: Event<Option<LineId>>,
        t: u32,
        taker: &mut T,
    ) -> Result<Reported, Refusal>
        requires { Known event }
        ensures comes { Comes (reporting (view self.old) t (T.Taker.room taker.old) (decide (view self.old) event 0 t)) result (view self.new) T.Taker.book T.Taker.took taker.old taker.new }
        ensures refused { is_ok result ≡ false → (self.new ≡ self.old) × (taker.new ≡ taker.old) }
    {
        let act = self.decide(event, 0, t)?;
        let closed = self.room_for(&act, t)?;
        self.perform(act, t);
        let due = self.report(act.due, act.report, t, taker);
        Ok(Reported { closed, due })
    }

    // A call that may report.
    pub(crate) fn call<T: Taker>(
        &mut self,
        event: Event<Option<LineId>>,
        t: u32,
        taker: &mut T,
    ) -> Result<Reported, Refusal>
        requires { Known event }
        ensures comes { Comes (reporting (view self.old) t (T.Taker.room taker.old) (decide (view self.old) event 0 t)) result (view self.new) T.Taker.book T.Taker.took taker.old taker.new }
        ensures refused { is_ok result ≡ false → (self.new ≡ self.old) × (taker.new ≡ taker.old) }
    {
        if self.count_if_quiet(event, t) {
            return Ok(NOTHING_CLOSED);
        }
        self.carry_out(event, t, taker)
    }

    // Hands over the Termination, unless there is no place or no intake for it.
    pub(crate) fn finish<T: Taker>(
        &mut self,
        cause: u8,
        slip: u32,
        t: u32,
        taker: &mut T,
    ) -> Result<usize, Refusal>
        ensures comes { Comes (finishing (view self.old) t (T.Taker.room taker.old) (decide (view self.old) (Finishing cause) slip t)) result (view self.new) T.Taker.book T.Taker.took taker.old taker.new }
        ensures refused { is_ok result ≡ false → (self.new ≡ self.old) × (taker.new ≡ taker.old) }
    {
        let act = self.decide(Event::Finish(cause), slip, t)?;
        let n = self.waiting.len() + self.room_for(&act, t)?;
        if taker.intake() < n + 1 {
            return Err(Refusal::IntakeTooSmall);
        }
        self.perform(act, t);
        self.terminate(act.cause, t, taker);
        Ok(n)
    }

    pub(crate) fn shelve(&mut self, slip: u32, t: u32) -> Result<usize, Refusal>
        ensures answer { result ≡ (shelving (view self.old) t (decide (view self.old) Shelving slip t)).answer }
        ensures after { view self.new ≡ (shelving (view self.old) t (decide (view self.old) Shelving slip t)).state }
        ensures refused { is_ok result ≡ false → self.new ≡ self.old }
    {
        let act = self.decide(Event::Shelve, slip, t)?;
        let n = self.waiting.len();
        self.perform(act, t);
        Ok(n)
    }
}
