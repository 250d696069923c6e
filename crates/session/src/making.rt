// Making a session: all the memory that its calls will need is reserved here.
ghost use Rattle.std.specs.Prelude.{◌≡◌, true, IfOk, IfErr, if◌then◌else◌};
ghost use Rattle.session.specs.declared.answer.NotMade.TheVariants.{OutOfRange, NoMemory};
ghost use Rattle.session.specs.declared.state.Phase.TheVariants.{Fresh as FreshPhase, Shelved as ShelvedPhase};
ghost use Rattle.session.specs.Profiles.{in_range};
ghost use Rattle.session.specs.Steps.{Made, made, refused_why, before_calls};
ghost use Rattle.session.specs.View.{view};

use crate::answer::NotMade;
use crate::ledger::*;
use crate::session::*;
use crate::state::*;
use crate::thresholds::Thresholds;
use entries::making::Refused;
use entries::method::Method;
use entries::trigger::TRIGGERS;
use std::alloc::Global;

impl Ledger {
    // A session that accepts no call, and needs no memory.
    fn shelved(heap: Global, id: u32, settings: [Setting; TRIGGERS]) -> Ledger
        ensures { view result ≡ before_calls id settings ShelvedPhase }
    {
        Ledger {
            id,
            settings,
            marks: Marks {
                phase: Phase::Shelved,
                period: 0,
                volume: 0,
                changes: 0,
                since: 0,
            },
            last: 0,
            closed: 0,
            owed: false,
            lines: Vec::new(heap),
            waiting: Vec::new(heap),
        }
    }

    // A fresh session with its memory reserved.
    fn fresh(
        heap: Global,
        id: u32,
        thresholds: &Thresholds,
        settings: [Setting; TRIGGERS],
    ) -> Result<Ledger, NotMade>
        ensures fresh { IfOk result (λ g. (in_range thresholds.now ≡ true) × (view g ≡ before_calls id settings FreshPhase)) }
        ensures refused { IfErr result (λ why. why ≡ (if in_range thresholds.now then NoMemory else OutOfRange)) }
    {
        if !thresholds.are_in_range() {
            return Err(NotMade::OutOfRange);
        }
        let mut ledger = Ledger::shelved(heap, id, settings);
        ledger.lines = Vec::with_capacity(heap, MOST_LINES)?;
        ledger.waiting = Vec::with_capacity(heap, MOST_WAITING)?;
        ledger.marks.phase = Phase::Fresh;
        Ok(ledger)
    }
}

impl<M: Method> Session<M> {
    // A fresh session with a charging id; or why it is not made, where a threshold is too large or there is no memory, and a
    // shelved session.
    pub fn new(
        heap: Global,
        method: M,
        id: u32,
        thresholds: Thresholds,
    ) -> Result<Session<M>, Refused<NotMade, Session<M>>>
        ensures { Made M.Method.column id thresholds (refused_why result) (view (made result).ledger) }
    {
        let settings = thresholds.settings(&method);
        // no `map_err`, as both arms take the method
        match Ledger::fresh(heap, id, &thresholds, settings) {
            Ok(ledger) => Ok(Session { method, ledger }),
            Err(why) => {
                let ledger = Ledger::shelved(heap, id, settings);
                Err(Refused {
                    why,
                    left: Session { method, ledger },
                })
            }
        }
    }
}
