// Charging methods: a kind of line keys together with a column of the trigger table.
ghost use Rattle.std.specs.Prelude.{◌≡◌};
ghost use Rattle.entries.specs.Columns.{Column, TariffFixed, table, converged, offline_only, qos_flow};
ghost use Rattle.std.proofs.Common.{rules};

use crate::key::*;
use crate::trigger::*;

// What the trigger table says of a trigger: whether it begins as immediate, else deferred, and whether the charging
// function may recategorise it, and switch it. A column each, and any combination is a rule.
#[derive(Clone, Copy, PartialEq, Eq, Debug)]
pub struct Rule {
    pub immediate: bool,
    pub recategorised: bool,
    pub switched: bool,
}

pub trait Method: Copy {
    type Key: LineKey;

    ghost column: { Column };

    // The rule of a trigger; none where the method lacks it. Any number may be asked for.
    fn rule(&self, trigger: u8) -> Option<Rule>
        ensures { result ≡ column trigger };

    ghost tariff: { TariffFixed column };
}

const DEFERRED: Rule = Rule {
    immediate: false,
    recategorised: true,
    switched: true,
};

const DEFERRED_FIXED: Rule = Rule {
    immediate: false,
    recategorised: false,
    switched: false,
};

const IMMEDIATE: Rule = Rule {
    immediate: true,
    recategorised: true,
    switched: true,
};

const IMMEDIATE_SWITCHED: Rule = Rule {
    immediate: true,
    recategorised: false,
    switched: true,
};

const IMMEDIATE_FIXED: Rule = Rule {
    immediate: true,
    recategorised: false,
    switched: false,
};

// The trigger table, but for the rows in which the methods differ: presence reporting area, the changes of time zone,
// PLMN, RAT type and Session-AMBR, and the end of a line.
fn table_rule(trigger: u8, area: Option<Rule>, moved: Rule, ended: Rule) -> Option<Rule>
    ensures { result ≡ table area moved ended trigger }
{
    match Trigger::try_from(trigger).ok()? {
        Trigger::PresenceArea => area,
        Trigger::Qos | Trigger::GfbrStatus | Trigger::UserLocation => Some(DEFERRED),
        Trigger::ServingNode | Trigger::PsDataOff => Some(DEFERRED),
        Trigger::LineTime | Trigger::LineVolume => Some(DEFERRED),
        Trigger::TariffTime => Some(DEFERRED_FIXED),
        Trigger::TimeZone | Trigger::Plmn | Trigger::RatType | Trigger::SessionAmbr => Some(moved),
        Trigger::SessionTime | Trigger::SessionVolume => Some(IMMEDIATE_SWITCHED),
        Trigger::ConditionChanges => Some(IMMEDIATE_SWITCHED),
        Trigger::LineEnd => Some(ended),
        Trigger::Intervention | Trigger::SessionEnd | Trigger::Abort => Some(IMMEDIATE_FIXED),
    }
}

// Each method is a kind of keys, and what differs in its column.

// Flow based charging, converged.
#[derive(Clone, Copy, PartialEq, Eq, Debug)]
pub struct Converged;

impl Method for Converged {
    type Key = ServiceKey;

    ghost column = { converged };

    ghost tariff = { Prim.search rules };

    fn rule(&self, trigger: u8) -> Option<Rule> {
        table_rule(trigger, Some(DEFERRED), IMMEDIATE, IMMEDIATE_FIXED)
    }
}

// Flow based charging, offline only.
#[derive(Clone, Copy, PartialEq, Eq, Debug)]
pub struct OfflineOnly;

impl Method for OfflineOnly {
    type Key = ServiceKey;

    ghost column = { offline_only };

    ghost tariff = { Prim.search rules };

    fn rule(&self, trigger: u8) -> Option<Rule> {
        table_rule(trigger, Some(DEFERRED), DEFERRED, IMMEDIATE_FIXED)
    }
}

// QoS flow based charging.
#[derive(Clone, Copy, PartialEq, Eq, Debug)]
pub struct QosFlow;

impl Method for QosFlow {
    type Key = Qfi;

    ghost column = { qos_flow };

    ghost tariff = { Prim.search rules };

    fn rule(&self, trigger: u8) -> Option<Rule> {
        table_rule(trigger, None, IMMEDIATE, DEFERRED)
    }
}
