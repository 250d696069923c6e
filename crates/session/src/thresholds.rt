// The thresholds of the limits, and the settings of a session as made.
ghost use Rattle.std.specs.Prelude.{◌≡◌, cond, Some, None};
ghost use Rattle.entries.specs.Numbers.{trigger_number};
ghost use Rattle.entries.specs.Triggers.{is_limit};
ghost use Rattle.session.specs.Profiles.{threshold_of, in_range, setting_made, settings_made};

use crate::state::*;
use entries::entry::MOST_OCTETS;
use entries::method::*;
use entries::trigger::*;
use std::array;

// The thresholds of the limits; 0 is no limit, as in an override and in a call list.
#[derive(Clone, Copy, PartialEq, Eq, Debug)]
pub struct Thresholds {
    // seconds
    pub session_time: u64,
    // octets of both directions
    pub session_volume: u64,
    // changes of conditions
    pub changes: u64,
    // seconds
    pub line_time: u64,
    // octets of both directions
    pub line_volume: u64,
}

pub const NO_LIMITS: Thresholds = Thresholds {
    session_time: 0,
    session_volume: 0,
    changes: 0,
    line_time: 0,
    line_volume: 0,
};

const NO_SETTING: Setting = Setting {
    known: false,
    enabled: false,
    immediate: false,
    threshold: 0,
};

impl Thresholds {
    pub(crate) fn are_in_range(&self) -> bool
        ensures { result ≡ in_range self.now }
    {
        self.session_time <= MOST_OCTETS
            && self.session_volume <= MOST_OCTETS
            && self.changes <= MOST_OCTETS
            && self.line_time <= MOST_OCTETS
            && self.line_volume <= MOST_OCTETS
    }

    // The threshold of a limit; none of another trigger.
    fn of(&self, trigger: Trigger) -> Option<u64>
        ensures { result ≡ cond (is_limit (trigger_number trigger)) (Some (threshold_of self.now (trigger_number trigger))) None }
    {
        match trigger {
            Trigger::SessionTime => Some(self.session_time),
            Trigger::SessionVolume => Some(self.session_volume),
            Trigger::ConditionChanges => Some(self.changes),
            Trigger::LineTime => Some(self.line_time),
            Trigger::LineVolume => Some(self.line_volume),
            _ => None,
        }
    }

    // Of the trigger of a number: a method's column may have a rule at any.
    fn make_setting(&self, rule: Option<Rule>, n: u8) -> Setting
        ensures { result ≡ setting_made rule self.now n }
    {
        let Some(rule) = rule else {
            return NO_SETTING;
        };
        let limit = Trigger::try_from(n)
            .ok()
            .and_then(|trigger| self.of(trigger));
        Setting {
            known: true,
            enabled: limit.is_none_or(|threshold| threshold > 0),
            immediate: rule.immediate,
            threshold: limit.unwrap_or(0),
        }
    }

    // The settings of a method, by the numbers of the triggers.
    pub(crate) fn settings<M: Method>(&self, method: &M) -> [Setting; TRIGGERS]
        ensures { result ≡ settings_made M.Method.column self.now }
    {
        array::from_fn(|i| {
            let n = i as u8;
            self.make_setting(method.rule(n), n)
        })
    }
}
