// The triggers, and their numbers.
ghost use Rattle.std.specs.Prelude.{◌≡◌, ◌≤◌};
ghost use Rattle.entries.specs.Triggers.{is_condition, is_limit};
ghost use Rattle.entries.specs.Numbers.{trigger_number, IsTriggerOf};

use crate::number::UnknownNumber;

// One more than the last number: a table by trigger number has so many places, and uses all but the first.
pub const TRIGGERS: usize = 21;

#[derive(Clone, Copy, PartialEq, Eq, Debug)]
pub enum Trigger {
    Qos = 1,
    GfbrStatus,
    UserLocation,
    ServingNode,
    PresenceArea,
    PsDataOff,
    TariffTime,
    TimeZone,
    Plmn,
    RatType,
    SessionAmbr,
    SessionTime,
    SessionVolume,
    ConditionChanges,
    LineTime,
    LineVolume,
    LineEnd,
    Intervention,
    SessionEnd,
    Abort,
}

impl Trigger {
    pub fn number(self) -> u8
        ensures number { result ≡ trigger_number self }
        ensures within { result ≤ 20 }
    {
        self as u8
    }

    // Whether it is a change of conditions: those come first, in the order of the numbers.
    pub fn is_condition(self) -> bool
        ensures { result ≡ is_condition (trigger_number self) }
    {
        self.number() <= Trigger::SessionAmbr.number()
    }

    // Whether it is a limit, which has a threshold.
    pub fn is_limit(self) -> bool
        ensures { result ≡ is_limit (trigger_number self) }
    {
        matches!(
            self,
            Trigger::SessionTime
                | Trigger::SessionVolume
                | Trigger::ConditionChanges
                | Trigger::LineTime
                | Trigger::LineVolume
        )
    }
}

impl TryFrom<u8> for Trigger {
    type Error = UnknownNumber;

    ghost try_from_gives = { IsTriggerOf };

    fn try_from(number: u8) -> Result<Trigger, UnknownNumber> {
        Ok(match number {
            1 => Trigger::Qos,
            2 => Trigger::GfbrStatus,
            3 => Trigger::UserLocation,
            4 => Trigger::ServingNode,
            5 => Trigger::PresenceArea,
            6 => Trigger::PsDataOff,
            7 => Trigger::TariffTime,
            8 => Trigger::TimeZone,
            9 => Trigger::Plmn,
            10 => Trigger::RatType,
            11 => Trigger::SessionAmbr,
            12 => Trigger::SessionTime,
            13 => Trigger::SessionVolume,
            14 => Trigger::ConditionChanges,
            15 => Trigger::LineTime,
            16 => Trigger::LineVolume,
            17 => Trigger::LineEnd,
            18 => Trigger::Intervention,
            19 => Trigger::SessionEnd,
            20 => Trigger::Abort,
            _ => return Err(UnknownNumber),
        })
    }
}
