// A session of a charging method, and the calls on it.
ghost use Rattle.std.specs.Prelude.{◌≡◌, true, false, [], is_ok, IfOk, IfErr};
ghost use Rattle.session.specs.declared.event.Event.TheVariants.{Open as Opening, Start as Starting, Usage as Reporting, End as Ending, Change as Changing, Tick as Ticking};
ghost use Rattle.session.specs.declared.event.Event.TheVariants.{Intervene as Intervening, Push as Pushing, Finish as Finishing, Shelve as Shelving};
ghost use Rattle.session.specs.Answers.{told_opening, told_report, told_finish, told_shelving};
ghost use Rattle.session.specs.Deciding.{decide};
ghost use Rattle.session.specs.Fit.{Known};
ghost use Rattle.session.specs.Laws.{Does, Lends};
ghost use Rattle.session.specs.Performing.{opening, reporting, finishing, shelving};
ghost use Rattle.session.specs.Slips.{without_slip, slip_aside, slip_handed};
ghost use Rattle.session.specs.Steps.{seen_event, seen, fed, may_report, step};
ghost use Rattle.session.specs.Taking.{Comes};
ghost use Rattle.session.specs.View.{view};

use crate::answer::*;
use crate::event::Event;
use crate::ledger::Ledger;
use crate::slip::Slip;
use entries::key::*;
use entries::method::Method;
use entries::taker::*;

#[derive(Drop)]
pub struct Session<M: Method> {
    pub(crate) method: M,
    pub(crate) ledger: Ledger,
}

// A call with the line that its key names, or none where the key is out of range.
fn see<K: LineKey>(event: Event<K>) -> Event<Option<LineId>>
    ensures seen { result ≡ seen_event K.LineKey.coding event }
    ensures known { Known result }
{
    match event {
        Event::Open => Event::Open,
        Event::Start(key) => Event::Start(key.line()),
        Event::Usage(key, up, down) => Event::Usage(key.line(), up, down),
        Event::End(key) => Event::End(key.line()),
        Event::Change(n) => Event::Change(n),
        Event::Tick => Event::Tick,
        Event::Intervene => Event::Intervene,
        Event::Push => Event::Push,
        Event::Finish(cause) => Event::Finish(cause),
        Event::Shelve => Event::Shelve,
    }
}

impl<M: Method> Session<M> {
    // The time of the last accepted call; 0 before the first.
    pub fn last(&self) -> u32
        ensures { result ≡ (view self.now.ledger).last }
    {
        self.ledger.last
    }

    // A call that may report.
    fn call<T: Taker>(
        &mut self,
        event: Event<M::Key>,
        t: u32,
        taker: &mut T,
    ) -> Result<Reported, Refusal>
        requires { may_report event ≡ true }
        ensures does { Does M.Key.LineKey.coding M.Method.column (view self.old.ledger) (fed event 0 t (T.Taker.room taker.old) []) (told_report result) (view self.new.ledger) }
        ensures lends { Lends (step M.Method.column (view self.old.ledger) (seen M.Key.LineKey.coding (fed event 0 t (T.Taker.room taker.old) []))).added T.Taker.book T.Taker.took taker.old taker.new }
        ensures refused { is_ok result ≡ false → (self.new ≡ self.old) × (taker.new ≡ taker.old) }
    {
        self.ledger.call(see(event), t, taker)
    }
}

// The ten calls, by names of their own, as an integrator reads them. Each promises that its answer, the session and what its
// taker gains are those of its step; and that, whatever making and calls the session comes from, the laws hold of them with
// this call behind them.
impl<M: Method> Session<M> {
    // Opens the session: applies the profile, hands over an Initial, and hands out the slip.
    pub fn open<F: ChargingFunction>(
        &mut self,
        t: u32,
        function: &mut F,
    ) -> Result<(Opened, Slip), Refusal>
        ensures does { Does M.Key.LineKey.coding M.Method.column (view self.old.ledger) (fed Opening 0 t (F.Taker.room function.old) (F.ChargingFunction.profile function.old)) (told_opening (slip_aside result)) (view self.new.ledger) }
        ensures lends { Lends (step M.Method.column (view self.old.ledger) (seen M.Key.LineKey.coding (fed Opening 0 t (F.Taker.room function.old) (F.ChargingFunction.profile function.old)))).added F.Taker.book F.Taker.took function.old function.new }
        ensures handed { slip_handed self.old.ledger.id result }
        ensures unspent { IfOk result (λ a. a.1.spent ≡ false) }
        ensures refused { is_ok result ≡ false → (self.new ≡ self.old) × (function.new ≡ function.old) }
    {
        let opened = self.ledger.open(&self.method, t, function)?;
        Ok((opened, Slip::new(self.ledger.id)))
    }

    // The line of the key becomes active from `t`.
    pub fn start<T: Taker>(
        &mut self,
        key: M::Key,
        t: u32,
        taker: &mut T,
    ) -> Result<Reported, Refusal>
        ensures does { Does M.Key.LineKey.coding M.Method.column (view self.old.ledger) (fed (Starting key) 0 t (T.Taker.room taker.old) []) (told_report result) (view self.new.ledger) }
        ensures lends { Lends (step M.Method.column (view self.old.ledger) (seen M.Key.LineKey.coding (fed (Starting key) 0 t (T.Taker.room taker.old) []))).added T.Taker.book T.Taker.took taker.old taker.new }
        ensures refused { is_ok result ≡ false → (self.new ≡ self.old) × (taker.new ≡ taker.old) }
    {
        self.call(Event::Start(key), t, taker)
    }

    // Counts octets uplink and downlink on the line of the key.
    pub fn usage<T: Taker>(
        &mut self,
        key: M::Key,
        up: u32,
        down: u32,
        t: u32,
        taker: &mut T,
    ) -> Result<Reported, Refusal>
        ensures does { Does M.Key.LineKey.coding M.Method.column (view self.old.ledger) (fed (Reporting key up down) 0 t (T.Taker.room taker.old) []) (told_report result) (view self.new.ledger) }
        ensures lends { Lends (step M.Method.column (view self.old.ledger) (seen M.Key.LineKey.coding (fed (Reporting key up down) 0 t (T.Taker.room taker.old) []))).added T.Taker.book T.Taker.took taker.old taker.new }
        ensures refused { is_ok result ≡ false → (self.new ≡ self.old) × (taker.new ≡ taker.old) }
    {
        self.call(Event::Usage(key, up, down), t, taker)
    }

    // The line of the key closes and becomes inactive.
    pub fn end<T: Taker>(&mut self, key: M::Key, t: u32, taker: &mut T) -> Result<Reported, Refusal>
        ensures does { Does M.Key.LineKey.coding M.Method.column (view self.old.ledger) (fed (Ending key) 0 t (T.Taker.room taker.old) []) (told_report result) (view self.new.ledger) }
        ensures lends { Lends (step M.Method.column (view self.old.ledger) (seen M.Key.LineKey.coding (fed (Ending key) 0 t (T.Taker.room taker.old) []))).added T.Taker.book T.Taker.took taker.old taker.new }
        ensures refused { is_ok result ≡ false → (self.new ≡ self.old) × (taker.new ≡ taker.old) }
    {
        self.call(Event::End(key), t, taker)
    }

    // A condition changed, by the number of its trigger.
    pub fn change<T: Taker>(&mut self, n: u8, t: u32, taker: &mut T) -> Result<Reported, Refusal>
        ensures does { Does M.Key.LineKey.coding M.Method.column (view self.old.ledger) (fed (Changing n) 0 t (T.Taker.room taker.old) []) (told_report result) (view self.new.ledger) }
        ensures lends { Lends (step M.Method.column (view self.old.ledger) (seen M.Key.LineKey.coding (fed (Changing n) 0 t (T.Taker.room taker.old) []))).added T.Taker.book T.Taker.took taker.old taker.new }
        ensures refused { is_ok result ≡ false → (self.new ≡ self.old) × (taker.new ≡ taker.old) }
    {
        self.call(Event::Change(n), t, taker)
    }

    // The time goes on.
    pub fn tick<T: Taker>(&mut self, t: u32, taker: &mut T) -> Result<Reported, Refusal>
        ensures does { Does M.Key.LineKey.coding M.Method.column (view self.old.ledger) (fed Ticking 0 t (T.Taker.room taker.old) []) (told_report result) (view self.new.ledger) }
        ensures lends { Lends (step M.Method.column (view self.old.ledger) (seen M.Key.LineKey.coding (fed Ticking 0 t (T.Taker.room taker.old) []))).added T.Taker.book T.Taker.took taker.old taker.new }
        ensures refused { is_ok result ≡ false → (self.new ≡ self.old) × (taker.new ≡ taker.old) }
    {
        self.call(Event::Tick, t, taker)
    }

    // The charging function intervenes: all active lines close.
    pub fn intervene<T: Taker>(&mut self, t: u32, taker: &mut T) -> Result<Reported, Refusal>
        ensures does { Does M.Key.LineKey.coding M.Method.column (view self.old.ledger) (fed Intervening 0 t (T.Taker.room taker.old) []) (told_report result) (view self.new.ledger) }
        ensures lends { Lends (step M.Method.column (view self.old.ledger) (seen M.Key.LineKey.coding (fed Intervening 0 t (T.Taker.room taker.old) []))).added T.Taker.book T.Taker.took taker.old taker.new }
        ensures refused { is_ok result ≡ false → (self.new ≡ self.old) × (taker.new ≡ taker.old) }
    {
        self.call(Event::Intervene, t, taker)
    }

    // Makes a report due.
    pub fn push<T: Taker>(&mut self, t: u32, taker: &mut T) -> Result<Reported, Refusal>
        ensures does { Does M.Key.LineKey.coding M.Method.column (view self.old.ledger) (fed Pushing 0 t (T.Taker.room taker.old) []) (told_report result) (view self.new.ledger) }
        ensures lends { Lends (step M.Method.column (view self.old.ledger) (seen M.Key.LineKey.coding (fed Pushing 0 t (T.Taker.room taker.old) []))).added T.Taker.book T.Taker.took taker.old taker.new }
        ensures refused { is_ok result ≡ false → (self.new ≡ self.old) × (taker.new ≡ taker.old) }
    {
        self.call(Event::Push, t, taker)
    }

    // Ends the session: all active lines close, and a Termination takes all that waits. A refusal gives the slip back.
    pub fn finish<T: Taker>(
        &mut self,
        cause: u8,
        t: u32,
        slip: Slip,
        taker: &mut T,
    ) -> Result<usize, (Refusal, Slip)>
        ensures does { Does M.Key.LineKey.coding M.Method.column (view self.old.ledger) (fed (Finishing cause) slip.id t (T.Taker.room taker.old) []) (told_finish (without_slip result)) (view self.new.ledger) }
        ensures lends { Lends (step M.Method.column (view self.old.ledger) (seen M.Key.LineKey.coding (fed (Finishing cause) slip.id t (T.Taker.room taker.old) []))).added T.Taker.book T.Taker.took taker.old taker.new }
        ensures back { IfErr result (λ e. e.1 ≡ slip) }
        ensures refused { is_ok result ≡ false → (self.new ≡ self.old) × (taker.new ≡ taker.old) }
    {
        let answer = self.ledger.finish(cause, slip.id, t, taker);
        slip.settle(answer)
    }

    // Shelves the session, which keeps its containers and open counts. A refusal gives the slip back.
    pub fn shelve(&mut self, t: u32, slip: Slip) -> Result<usize, (Refusal, Slip)>
        ensures does { Does M.Key.LineKey.coding M.Method.column (view self.old.ledger) (fed Shelving slip.id t 0 []) (told_shelving (without_slip result)) (view self.new.ledger) }
        ensures adds { (step M.Method.column (view self.old.ledger) (seen M.Key.LineKey.coding (fed Shelving slip.id t 0 []))).added ≡ [] }
        ensures back { IfErr result (λ e. e.1 ≡ slip) }
        ensures refused { is_ok result ≡ false → self.new ≡ self.old }
    {
        let answer = self.ledger.shelve(slip.id, t);
        slip.settle(answer)
    }
}
