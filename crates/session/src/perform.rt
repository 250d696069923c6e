// Performing what was decided, and handing over what it makes due.
ghost use Rattle.std.specs.Prelude.{◌≡◌, ◌+◌, ◌≤◌, true, false, ◌∷◌, ◌++◌, length, vec_len, vec_capacity};
ghost use Rattle.entries.specs.Entries.{termination};
ghost use Rattle.entries.specs.Numbers.{kind_number};
ghost use Rattle.entries.specs.Requests.{head_formed};
ghost use Rattle.session.specs.Closing.{closes, closing_count};
ghost use Rattle.session.specs.Fit.{Fit, EditWithin, StopWithin};
ghost use Rattle.session.specs.Performing.{edited, stopped_at, acted, closed_by, no_place, unless, head, head_of, offered, offer, report_waits, report};
ghost use Rattle.session.specs.Taking.{Comes};
ghost use Rattle.session.specs.View.{view};

use crate::answer::*;
use crate::ledger::*;
use crate::state::*;
use entries::entry::*;
use entries::taker::Taker;

// More waiting containers than this make a report due.
const REPORT_ABOVE: usize = 96;

// The largest container number.
const LARGEST_NUMBER: usize = u32::MAX as usize;

fn edit_lines(lines: &mut Vec<Line>, edit: Edit)
    requires within { EditWithin edit lines.old.items }
    requires room { 32 ≤ vec_capacity lines.old }
    requires few { vec_len lines.old ≤ 32 }
    ensures after { lines.new.items ≡ edited edit lines.old.items }
    ensures few { vec_len lines.new ≤ 32 }
    ensures reserved { vec_capacity lines.new ≡ vec_capacity lines.old }
{
    match edit {
        Edit::Keep => {}
        Edit::Put(i, line) => lines[i] = line,
        Edit::Add(line) => lines.push_reserved(line),
    }
}

fn stop_line(lines: &mut Vec<Line>, stop: Option<usize>)
    requires within { StopWithin stop lines.old.items }
    ensures after { lines.new.items ≡ stopped_at stop lines.old.items }
    ensures long { vec_len lines.new ≡ vec_len lines.old }
    ensures reserved { vec_capacity lines.new ≡ vec_capacity lines.old }
{
    if let Some(i) = stop {
        lines[i].active = false;
    }
}

impl Ledger {
    // How many lines a selection closes.
    pub(crate) fn closing(&self, chosen: Selection, t: u32) -> usize
        ensures count { result ≡ closing_count (closes chosen t) (view self.now).lines }
        ensures most { result ≤ 32 }
    {
        chosen.count(&self.lines, t)
    }

    // How many lines an act closes, or why there is no place for their containers: the numbers and the waiting list have
    // limits.
    pub(crate) fn room_for(&self, act: &Act, t: u32) -> Result<usize, Refusal>
        ensures { result ≡ unless (no_place (view self.now) act.now t) (closed_by (view self.now) act.now t) }
    {
        let n = self.closing(act.chosen, t);
        if self.closed as usize + n > LARGEST_NUMBER {
            return Err(Refusal::TooLarge);
        }
        if self.waiting.len() + n > MOST_WAITING {
            return Err(Refusal::WaitingFull);
        }
        Ok(n)
    }

    // Does what a decision says, up to its report.
    pub(crate) fn perform(&mut self, act: Act, t: u32)
        requires fit { Fit (view self.old) t act }
        requires space { length self.old.waiting.items + closed_by (view self.old) act t ≤ 128 }
        requires numbers { self.old.closed + closed_by (view self.old) act t ≤ 4294967295 }
        ensures after { view self.new ≡ acted (view self.old) act t }
        ensures longer { length self.new.waiting.items ≡ length self.old.waiting.items + closed_by (view self.old) act t }
    {
        edit_lines(&mut self.lines, act.edit);
        let closing = Closing {
            chosen: act.chosen,
            cause: act.cause,
            period: self.marks.period,
            time: t,
        };
        let done = self.closed;
        let closed = closing.close_lines(&mut self.lines, &mut self.waiting, done);
        stop_line(&mut self.lines, act.stop);
        self.marks = act.marks;
        self.last = t;
        self.closed = closed;
    }

    // A head of the session, over so many containers.
    pub(crate) fn head(&self, kind: Kind, cause: u8, number: u32, t: u32) -> Entry
        ensures value { result ≡ head (kind_number kind) cause self.now.marks.period number t self.now.id }
        ensures formed { kind_number kind ≤ termination → head_formed result number ≡ true }
    {
        Entry {
            kind: kind.number(),
            cause,
            period: self.marks.period,
            number,
            from: t,
            to: t,
            code: self.id as u64,
            uplink: Uplink(0),
            downlink: Downlink(0),
        }
    }

    // Offers an Update with all that waits.
    fn offer<T: Taker>(&mut self, cause: u8, t: u32, taker: &mut T) -> Due
        ensures { Comes (offer (view self.old) cause t (T.Taker.room taker.old)) result (view self.new) T.Taker.book T.Taker.took taker.old taker.new }
    {
        let n = self.waiting.len();
        let head = self.head(Kind::Update, cause, n as u32, t);
        if taker.take(&head, self.waiting.as_slice()).is_ok() {
            self.waiting.clear();
            self.owed = false;
            Due::Sent(n)
        } else {
            self.owed = true;
            Due::Held(n)
        }
    }

    // Whether a report is due whatever the call: one is owed, or too many containers wait.
    pub(crate) fn report_waits(&self) -> bool
        ensures { result ≡ report_waits (view self.now) }
    {
        self.owed || self.waiting.len() > REPORT_ABOVE
    }

    // Offers an Update if one is due, by the call itself or whatever the call.
    pub(crate) fn report<T: Taker>(&mut self, due: bool, cause: u8, t: u32, taker: &mut T) -> Due
        ensures { Comes (report (view self.old) due cause t (T.Taker.room taker.old)) result (view self.new) T.Taker.book T.Taker.took taker.old taker.new }
    {
        if due || self.report_waits() {
            return self.offer(cause, t, taker);
        }
        Due::Nothing
    }

    // Hands all that waits over as a Termination, to a taker whose intake suffices.
    pub(crate) fn terminate<T: Taker>(&mut self, cause: u8, t: u32, taker: &mut T)
        requires { length self.old.waiting.items + 1 ≤ T.Taker.room taker.old }
        ensures after { view self.new ≡ offered (view self.old) true }
        ensures gained { T.Taker.book taker.new ≡ T.Taker.book taker.old ++ (head_of (view self.old) termination cause t ∷ self.old.waiting.items) }
        ensures memory { T.Taker.took taker.old (head_of (view self.old) termination cause t) self.old.waiting.items taker.new }
    {
        let n = self.waiting.len();
        let head = self.head(Kind::Termination, cause, n as u32, t);
        let _ = taker.take(&head, self.waiting.as_slice());
        self.waiting.clear();
        self.owed = false;
    }
}
