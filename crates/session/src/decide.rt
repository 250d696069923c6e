// Deciding what a call does, or why it is refused. Nothing here changes a session.
ghost use Rattle.std.specs.Prelude.{◌≡◌, ◌+◌, ◌<◌, IfSome, IfOk, Some, None, vec_len, nat_le};
ghost use Rattle.entries.specs.declared.trigger.Trigger.TheVariants.{TariffTime};
ghost use Rattle.entries.specs.Numbers.{trigger_number};
ghost use Rattle.session.specs.Deciding.{quiet, closing, open_act, start_at, start_act, count_act, active_place, usage_act, ending, end_act};
ghost use Rattle.session.specs.Deciding.{changes_full, changed_marks, changing, change_act, tick_act, intervene_act, finish_act, shelve_act, decide};
ghost use Rattle.session.specs.Sound.{Bounded};
ghost use Rattle.session.specs.State.{setting, can_fire, limit_met, is_urgent, volume_sum, line_at, place_of};
ghost use Rattle.session.specs.View.{view};

use crate::answer::Refusal;
use crate::event::*;
use crate::ledger::*;
use crate::state::*;
use entries::entry::*;
use entries::key::LineId;
use entries::trigger::*;

// An act that closes nothing.
fn quiet_act(edit: Edit, marks: Marks, due: bool) -> Act
    ensures { result ≡ quiet edit marks due }
{
    Act {
        edit,
        chosen: Selection::Nothing,
        cause: 0,
        stop: None,
        marks,
        due,
        report: 0,
    }
}

// An act of a trigger that fired; where that is urgent, a report is due.
fn closing_act(edit: Edit, chosen: Selection, trigger: Trigger, marks: Marks, urgent: bool) -> Act
    ensures { result ≡ closing edit chosen (trigger_number trigger) marks urgent }
{
    let cause = trigger.number();
    Act {
        chosen,
        cause,
        report: if urgent { cause } else { 0 },
        ..quiet_act(edit, marks, urgent)
    }
}

// Whether a count raised by 1 meets a limit.
fn meets(count: u64, limit: u64) -> bool
    requires { 0 < limit }
    ensures { result ≡ nat_le limit (count + 1) }
{
    limit - 1 <= count
}

impl Ledger {
    fn setting(&self, trigger: Trigger) -> Setting
        ensures { result ≡ setting (view self.now) (trigger_number trigger) }
    {
        self.settings[trigger.number() as usize]
    }

    fn can_fire(&self, trigger: Trigger) -> bool
        ensures { result ≡ can_fire (view self.now) (trigger_number trigger) }
    {
        let setting = self.setting(trigger);
        setting.enabled && setting.threshold > 0
    }

    pub(crate) fn is_met(&self, trigger: Trigger, measure: u64) -> bool
        ensures { result ≡ limit_met (view self.now) (trigger_number trigger) measure }
    {
        self.can_fire(trigger) && self.setting(trigger).threshold <= measure
    }

    fn is_urgent(&self, trigger: Trigger) -> bool
        ensures { result ≡ is_urgent (view self.now) (trigger_number trigger) }
    {
        let setting = self.setting(trigger);
        setting.enabled && setting.immediate
    }

    // An act of a trigger that fired, urgent if the trigger is.
    fn fired(&self, trigger: Trigger, chosen: Selection, edit: Edit, marks: Marks) -> Act
        ensures { result ≡ closing edit chosen (trigger_number trigger) marks (is_urgent (view self.now) (trigger_number trigger)) }
    {
        closing_act(edit, chosen, trigger, marks, self.is_urgent(trigger))
    }

    // The index of the line with an identity. There are 32 at most, in the order in which they close, and their memory is
    // reserved: a map would allocate in a call.
    pub(crate) fn place(&self, id: LineId) -> Option<usize>
        ensures place { result ≡ place_of (view self.now) id }
        ensures inside { IfSome result (λ i. i < vec_len self.now.lines) }
    {
        self.lines.iter().position(|line| line.id == id)
    }

    pub(crate) fn line(&self, i: usize) -> Line
        requires { i < vec_len self.now.lines }
        ensures read { result ≡ line_at (view self.now) i }
        ensures bounded { Bounded result }
    {
        self.lines[i]
    }

    fn open_act(&self, t: u32) -> Act
        ensures { result ≡ open_act (view self.now) t }
    {
        let marks = Marks {
            phase: Phase::Open,
            since: t,
            ..self.marks
        };
        quiet_act(Edit::Keep, marks, false)
    }

    fn start_act(&self, key: Option<LineId>, t: u32) -> Result<Act, Refusal>
        ensures { result ≡ start_act (view self.now) key t }
    {
        let id = key.ok_or(Refusal::OutOfRange)?;
        match self.place(id) {
            Some(i) => self.restart(id, i, t),
            None => self.add_line(id, t),
        }
    }

    fn restart(&self, id: LineId, i: usize, t: u32) -> Result<Act, Refusal>
        requires { i < vec_len self.now.lines }
        ensures { result ≡ start_at (view self.now) id t (Some i) }
    {
        let line = self.line(i);
        if line.active {
            return Err(Refusal::LineActive);
        }
        let started = Line {
            active: true,
            since: t,
            uplink: Uplink(0),
            downlink: Downlink(0),
            ..line
        };
        Ok(quiet_act(Edit::Put(i, started), self.marks, false))
    }

    fn add_line(&self, id: LineId, t: u32) -> Result<Act, Refusal>
        ensures { result ≡ start_at (view self.now) id t None }
    {
        if self.lines.len() >= MOST_LINES {
            return Err(Refusal::TooManyLines);
        }
        let line = Line {
            id,
            active: true,
            since: t,
            uplink: Uplink(0),
            downlink: Downlink(0),
            total_uplink: Uplink(0),
            total_downlink: Downlink(0),
        };
        Ok(quiet_act(Edit::Add(line), self.marks, false))
    }

    // The volume sum with a report in it, both directions added, for the limit of the session's volume.
    pub(crate) fn volume_sum(&self, volume: Volume) -> u64
        ensures { result ≡ volume_sum self.now.marks.volume volume.up volume.down }
    {
        self.marks.volume + (volume.up as u64 + volume.down as u64)
    }

    // What the limits make of a report that is counted on a line.
    fn count_act(&self, id: LineId, i: usize, volume: Volume, line: Line) -> Act
        requires { Bounded line }
        ensures { result ≡ count_act (view self.now) id i volume.up volume.down line }
    {
        let edit = Edit::Put(i, line);
        let sum = self.volume_sum(volume);
        if self.is_met(Trigger::SessionVolume, sum) {
            let marks = Marks {
                volume: 0,
                ..self.marks
            };
            return self.fired(Trigger::SessionVolume, Selection::Active, edit, marks);
        }
        let marks = Marks {
            volume: sum,
            ..self.marks
        };
        if self.is_met(Trigger::LineVolume, line.open_octets()) {
            return self.fired(Trigger::LineVolume, Selection::One(id), edit, marks);
        }
        quiet_act(edit, marks, false)
    }

    // The line of a key and its index, where it is active.
    fn active_place(&self, key: Option<LineId>) -> Result<(LineId, usize), Refusal>
        ensures found { result ≡ active_place (view self.now) key }
        ensures inside { IfOk result (λ a. a.1 < vec_len self.now.lines) }
    {
        let id = key.ok_or(Refusal::OutOfRange)?;
        let i = self.place(id).ok_or(Refusal::NoActiveLine)?;
        if !self.line(i).active {
            return Err(Refusal::NoActiveLine);
        }
        Ok((id, i))
    }

    fn usage_act(&self, key: Option<LineId>, volume: Volume) -> Result<Act, Refusal>
        ensures { result ≡ usage_act (view self.now) key volume.up volume.down }
    {
        let (id, i) = self.active_place(key)?;
        let line = self.line(i).count(volume);
        if line.is_over_total() {
            return Err(Refusal::TooLarge);
        }
        Ok(self.count_act(id, i, volume, line))
    }

    fn ending(&self, id: LineId, i: usize) -> Act
        ensures { result ≡ ending (view self.now) id i }
    {
        Act {
            stop: Some(i),
            ..self.fired(Trigger::LineEnd, Selection::One(id), Edit::Keep, self.marks)
        }
    }

    fn end_act(&self, key: Option<LineId>) -> Result<Act, Refusal>
        ensures { result ≡ end_act (view self.now) key }
    {
        let (id, i) = self.active_place(key)?;
        Ok(self.ending(id, i))
    }

    // Whether a change is the last that the limit of changes allows.
    fn is_full(&self, change: Trigger) -> bool
        ensures { result ≡ changes_full (view self.now) (trigger_number change) }
    {
        self.setting(change).enabled
            && self.can_fire(Trigger::ConditionChanges)
            && meets(
                self.marks.changes,
                self.setting(Trigger::ConditionChanges).threshold,
            )
    }

    // The change count after a change: it rises where the limit can fire, and returns to 0 where it fires.
    fn changes_after(&self, change: Trigger) -> u64
        ensures { result ≡ (changed_marks (view self.now) (trigger_number change)).changes }
    {
        let changes = self.marks.changes;
        if !self.setting(change).enabled || !self.can_fire(Trigger::ConditionChanges) {
            return changes;
        }
        let limit = self.setting(Trigger::ConditionChanges).threshold;
        if meets(changes, limit) {
            0
        } else {
            changes + 1
        }
    }

    fn period_after(&self, change: Trigger) -> u16
        requires { change ≡ TariffTime → self.now.marks.period < 65535 }
        ensures { result ≡ (changed_marks (view self.now) (trigger_number change)).period }
    {
        match change {
            Trigger::TariffTime => self.marks.period + 1,
            _ => self.marks.period,
        }
    }

    fn change_selection(&self, change: Trigger) -> Selection
        ensures { result ≡ (changing (view self.now) (trigger_number change)).chosen }
    {
        if self.setting(change).enabled {
            Selection::Active
        } else {
            Selection::Nothing
        }
    }

    // The cause of a report at a change.
    fn change_report(&self, change: Trigger) -> u8
        ensures { result ≡ (changing (view self.now) (trigger_number change)).report }
    {
        if self.is_full(change) {
            return Trigger::ConditionChanges.number();
        }
        if self.is_urgent(change) {
            change.number()
        } else {
            0
        }
    }

    fn changing(&self, change: Trigger) -> Act
        requires { change ≡ TariffTime → self.now.marks.period < 65535 }
        ensures { result ≡ changing (view self.now) (trigger_number change) }
    {
        let marks = Marks {
            period: self.period_after(change),
            changes: self.changes_after(change),
            ..self.marks
        };
        let due = self.is_full(change) && self.is_urgent(Trigger::ConditionChanges)
            || self.is_urgent(change);
        Act {
            chosen: self.change_selection(change),
            cause: change.number(),
            report: self.change_report(change),
            ..quiet_act(Edit::Keep, marks, due)
        }
    }

    fn change_act(&self, n: u8) -> Result<Act, Refusal>
        ensures { result ≡ change_act (view self.now) n }
    {
        let change = Trigger::try_from(n)?;
        if !change.is_condition() || !self.setting(change).known {
            return Err(Refusal::OutOfRange);
        }
        if change == Trigger::TariffTime && self.marks.period == u16::MAX {
            return Err(Refusal::TooLarge);
        }
        Ok(self.changing(change))
    }

    fn tick_act(&self, t: u32) -> Act
        ensures { result ≡ tick_act (view self.now) t }
    {
        let marks = self.marks;
        let open = t.saturating_sub(marks.since) as u64;
        if self.is_met(Trigger::SessionTime, open) {
            let marks = Marks { since: t, ..marks };
            return self.fired(Trigger::SessionTime, Selection::Active, Edit::Keep, marks);
        }
        if self.can_fire(Trigger::LineTime) {
            let chosen = Selection::OpenFor(self.setting(Trigger::LineTime).threshold);
            let urgent = self.is_urgent(Trigger::LineTime) && self.closing(chosen, t) > 0;
            return closing_act(Edit::Keep, chosen, Trigger::LineTime, marks, urgent);
        }
        quiet_act(Edit::Keep, marks, false)
    }

    fn intervene_act(&self) -> Act
        ensures { result ≡ intervene_act (view self.now) }
    {
        self.fired(
            Trigger::Intervention,
            Selection::Active,
            Edit::Keep,
            self.marks,
        )
    }

    fn finish_act(&self, cause: u8) -> Result<Act, Refusal>
        ensures { result ≡ finish_act (view self.now) cause }
    {
        let cause = Trigger::try_from(cause)?;
        if !matches!(cause, Trigger::SessionEnd | Trigger::Abort) {
            return Err(Refusal::OutOfRange);
        }
        let marks = Marks {
            phase: Phase::Ended,
            ..self.marks
        };
        Ok(closing_act(Edit::Keep, Selection::Active, cause, marks, false))
    }

    fn shelve_act(&self) -> Act
        ensures { result ≡ shelve_act (view self.now) }
    {
        let marks = Marks {
            phase: Phase::Shelved,
            ..self.marks
        };
        quiet_act(Edit::Keep, marks, false)
    }

    // What a call does, decided by phase and call together.
    pub(crate) fn decide(
        &self,
        event: Event<Option<LineId>>,
        slip: u32,
        t: u32,
    ) -> Result<Act, Refusal>
        ensures { result ≡ decide (view self.now) event slip t }
    {
        match (self.marks.phase, event) {
            (Phase::Open, Event::Open) => Err(Refusal::WrongPhase),
            (Phase::Open, Event::Finish(_) | Event::Shelve) if slip != self.id => {
                Err(Refusal::OtherSlip)
            }
            (Phase::Fresh, Event::Open) | (Phase::Open, _) if t < self.last => Err(Refusal::Early),
            (Phase::Fresh, Event::Open) => Ok(self.open_act(t)),
            (Phase::Open, Event::Start(key)) => self.start_act(key, t),
            (Phase::Open, Event::Usage(key, up, down)) => self.usage_act(key, Volume { up, down }),
            (Phase::Open, Event::End(key)) => self.end_act(key),
            (Phase::Open, Event::Change(n)) => self.change_act(n),
            (Phase::Open, Event::Tick) => Ok(self.tick_act(t)),
            (Phase::Open, Event::Intervene) => Ok(self.intervene_act()),
            (Phase::Open, Event::Push) => Ok(quiet_act(Edit::Keep, self.marks, true)),
            (Phase::Open, Event::Finish(cause)) => self.finish_act(cause),
            (Phase::Open, Event::Shelve) => Ok(self.shelve_act()),
            _ => Err(Refusal::WrongPhase),
        }
    }
}
