// The parts of a session, and what a call is decided to do to them.
use entries::entry::{Downlink, Uplink};
use entries::key::LineId;

#[derive(Clone, Copy)]
pub enum Phase {
    Fresh,
    Open,
    Ended,
    Shelved,
}

// A line: the count that is open since a time, and the totals. An inactive line has an open count of 0, so that sums over
// lines need no case.
#[derive(Clone, Copy)]
pub struct Line {
    pub id: LineId,
    pub active: bool,
    pub since: u32,
    pub uplink: Uplink,
    pub downlink: Downlink,
    pub total_uplink: Uplink,
    pub total_downlink: Downlink,
}

// A trigger as set: whether the method has it, whether it is enabled, its category and its threshold. A trigger that the
// method lacks is off, so that only a change of conditions asks whether it is known.
#[derive(Clone, Copy)]
pub struct Setting {
    pub known: bool,
    pub enabled: bool,
    pub immediate: bool,
    pub threshold: u64,
}

// What the calls move: the phase, the tariff period, and what the session's limits are measured by: the volume sum, the
// change count and the time mark.
#[derive(Clone, Copy)]
pub struct Marks {
    pub phase: Phase,
    pub period: u16,
    pub volume: u64,
    pub changes: u64,
    pub since: u32,
}

// What a call itself does to the lines.
#[derive(Clone, Copy)]
pub enum Edit {
    Keep,
    Put(usize, Line),
    Add(Line),
}

// Which lines then close.
#[derive(Clone, Copy)]
pub enum Selection {
    Nothing,
    Active,
    One(LineId),
    // active lines that are open for so long
    OpenFor(u64),
}

// A closing of lines into containers: which lines, with which cause, in which tariff period, and when. Causes are numbers
// here and in an act, as a container and a head hold them, 0 for none.
#[derive(Clone, Copy)]
pub struct Closing {
    pub chosen: Selection,
    pub cause: u8,
    pub period: u16,
    pub time: u32,
}

// What an accepted call does: the edit, the lines that close and with which cause, the line that then stops, the marks
// after it, and whether a report is due by the call itself. The cause of a report stands whether or not it is: one may be due
// whatever the call.
#[derive(Clone, Copy)]
pub struct Act {
    pub edit: Edit,
    pub chosen: Selection,
    pub cause: u8,
    pub stop: Option<usize>,
    pub marks: Marks,
    pub due: bool,
    pub report: u8,
}
