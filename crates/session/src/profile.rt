// The profile of a charging function, applied to the triggers of a method.
ghost use Rattle.std.specs.Prelude.{◌≡◌, ◌-◌, true, false, ◌&&◌, ◌||◌, is_none, length, MatchResult};
ghost use Rattle.entries.specs.Triggers.{is_limit};
ghost use Rattle.session.specs.Profiles.{override_in_range, permitted, change_of, applied_one, applied, applied_count};

use crate::answer::Opened;
use crate::state::*;
use entries::entry::MOST_OCTETS;
use entries::method::*;
use entries::number::UnknownNumber;
use entries::profile::*;
use entries::taker::*;
use entries::trigger::*;

// What an override changes in a setting; a part of none stays as it is.
#[derive(Clone, Copy)]
struct Change {
    enabled: Option<bool>,
    immediate: Option<bool>,
    threshold: Option<u64>,
}

impl TryFrom<Override> for Change {
    type Error = UnknownNumber;

    ghost try_from_gives = { λ o r. MatchResult r (λ c. (override_in_range o ≡ true) × (c ≡ change_of o)) (λ e. override_in_range o ≡ false) };

    fn try_from(o: Override) -> Result<Change, UnknownNumber> {
        let switch = Switch::try_from(o.switch)?;
        let category = Category::try_from(o.category)?;
        // the trigger stays a number, as a method may have a rule at 0
        if o.trigger > Trigger::Abort.number() || o.threshold > MOST_OCTETS {
            return Err(UnknownNumber);
        }
        Ok(Change {
            enabled: match switch {
                Switch::Leave => None,
                Switch::Enable => Some(true),
                Switch::Disable => Some(false),
            },
            immediate: match category {
                Category::Leave => None,
                Category::Deferred => Some(false),
                Category::Immediate => Some(true),
            },
            threshold: (o.threshold > 0).then_some(o.threshold),
        })
    }
}

impl Change {
    // Whether a rule of the trigger table permits each part; a threshold belongs to a limit.
    fn is_permitted(self, rule: Rule, trigger: u8) -> bool
        ensures { result ≡ ((is_none self.enabled || rule.switched) && ((is_none self.immediate || rule.recategorised) && (is_none self.threshold || is_limit trigger))) }
    {
        let is_limit = Trigger::try_from(trigger).is_ok_and(|t| t.is_limit());
        (self.enabled.is_none() || rule.switched)
            && (self.immediate.is_none() || rule.recategorised)
            && (self.threshold.is_none() || is_limit)
    }
}

// Applies an override, or passes it over.
fn apply_one(settings: &mut [Setting; TRIGGERS], rule: Option<Rule>, o: Override) -> bool
    ensures answer { result ≡ permitted rule o }
    ensures after { settings.new ≡ applied_one rule o settings.old }
{
    let (Some(rule), Ok(change)) = (rule, Change::try_from(o)) else {
        return false;
    };
    if !change.is_permitted(rule, o.trigger) {
        return false;
    }
    let n = o.trigger as usize;
    let setting = settings[n];
    settings[n] = Setting {
        enabled: change.enabled.unwrap_or(setting.enabled),
        immediate: change.immediate.unwrap_or(setting.immediate),
        threshold: change.threshold.unwrap_or(setting.threshold),
        ..setting
    };
    true
}

pub(crate) fn apply<M: Method, F: ChargingFunction>(
    method: &M,
    function: &F,
    settings: &mut [Setting; TRIGGERS],
) -> Opened
    ensures after { settings.new ≡ applied M.Method.column (F.ChargingFunction.profile function.now) settings.old }
    ensures applied { result.applied ≡ applied_count M.Method.column (F.ChargingFunction.profile function.now) }
    ensures passed { result.passed ≡ length (F.ChargingFunction.profile function.now) - applied_count M.Method.column (F.ChargingFunction.profile function.now) }
{
    let mut applied: usize = 0;
    let mut seen: usize = 0;
    // by index, as the function is asked one by one; a loop over `map_while` was tried, and its proof does not check
    for i in 0..MOST_OVERRIDES {
        if let Some(o) = function.override_at(i) {
            seen += 1;
            if apply_one(settings, method.rule(o.trigger), o) {
                applied += 1;
            }
        }
    }
    Opened {
        applied,
        passed: seen - applied,
    }
}
