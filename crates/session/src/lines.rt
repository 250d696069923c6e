// Lines: counting on them, and closing them into containers.
ghost use Rattle.std.specs.Prelude.{◌≡◌, ◌+◌, ◌≤◌, false, ◌++◌, length, vec_len, vec_capacity};
ghost use Rattle.session.specs.Closing.{closes, closes_by, container, restarted, closed_lines, closings, closing_count};
ghost use Rattle.session.specs.Sound.{Bounded};
ghost use Rattle.session.specs.State.{counted, over_total, open_octets};

use crate::event::Volume;
use crate::state::*;
use entries::entry::*;

impl Line {
    // The line with a report counted. Its totals may be too large until that is looked at, so no type keeps them bounded.
    pub(crate) fn count(self, volume: Volume) -> Line
        requires { Bounded self }
        ensures value { result ≡ counted volume.up volume.down self }
        ensures bounded { over_total result ≡ false → Bounded result }
    {
        Line {
            uplink: Uplink(self.uplink.0 + volume.up as u64),
            downlink: Downlink(self.downlink.0 + volume.down as u64),
            total_uplink: Uplink(self.total_uplink.0 + volume.up as u64),
            total_downlink: Downlink(self.total_downlink.0 + volume.down as u64),
            ..self
        }
    }

    pub(crate) fn is_over_total(&self) -> bool
        ensures { result ≡ over_total self.now }
    {
        self.total_uplink.0 > MOST_OCTETS || self.total_downlink.0 > MOST_OCTETS
    }

    // The open octets of both directions, for the limit of a line's volume.
    pub(crate) fn open_octets(&self) -> u64
        requires { Bounded self.now }
        ensures { result ≡ open_octets self.now }
    {
        self.uplink.0 + self.downlink.0
    }
}

impl Selection {
    // Whether a line closes at a time.
    fn chooses(self, line: &Line, t: u32) -> bool
        ensures { result ≡ closes self t line.now }
    {
        match self {
            Selection::Nothing => false,
            Selection::Active => line.active,
            Selection::One(id) => line.active && line.id == id,
            Selection::OpenFor(n) => line.active && n <= t.saturating_sub(line.since) as u64,
        }
    }

    // How many lines close.
    pub(crate) fn count(self, lines: &[Line], t: u32) -> usize
        ensures count { result ≡ closing_count (closes self t) lines.now }
        ensures most { result ≤ length lines.now }
    {
        // most calls close nothing, and look at no line
        if let Selection::Nothing = self {
            return 0;
        }
        lines.iter().filter(|line| self.chooses(line, t)).count()
    }
}

impl Closing {
    // Closes a line into a container.
    fn close_line(&self, line: &mut Line, number: u32) -> Entry
        ensures made { result ≡ container self.now.cause self.now.period number self.now.time line.old }
        ensures after { line.new ≡ restarted self.now.time line.old }
    {
        let container = Entry {
            kind: line.id.kind,
            cause: self.cause,
            period: self.period,
            number,
            from: line.since,
            to: self.time,
            code: line.id.code,
            uplink: line.uplink,
            downlink: line.downlink,
        };
        line.since = self.time;
        line.uplink = Uplink(0);
        line.downlink = Downlink(0);
        container
    }

    // Closes the chosen lines into containers, numbered from `done` + 1, and answers the number of the last.
    pub(crate) fn close_lines(
        &self,
        lines: &mut Vec<Line>,
        waiting: &mut Vec<Entry>,
        done: u32,
    ) -> u32
        requires space { vec_len waiting.old + closing_count (closes_by self.now) lines.old.items ≤ vec_capacity waiting.old }
        requires numbers { done + closing_count (closes_by self.now) lines.old.items ≤ 4294967295 }
        ensures count { result ≡ done + closing_count (closes_by self.now) lines.old.items }
        ensures after { lines.new.items ≡ closed_lines (closes_by self.now) self.now.time lines.old.items }
        ensures long { vec_len lines.new ≡ vec_len lines.old }
        ensures kept { vec_capacity lines.new ≡ vec_capacity lines.old }
        ensures appended { waiting.new.items ≡ waiting.old.items ++ closings (closes_by self.now) self.now.cause self.now.period self.now.time done lines.old.items }
        ensures longer { vec_len waiting.new ≡ vec_len waiting.old + closing_count (closes_by self.now) lines.old.items }
        ensures reserved { vec_capacity waiting.new ≡ vec_capacity waiting.old }
    {
        if let Selection::Nothing = self.chosen {
            return done;
        }
        let mut number = done;
        for line in lines.iter_mut() {
            if self.chosen.chooses(line, self.time) {
                number += 1;
                waiting.push_reserved(self.close_line(line, number));
            }
        }
        number
    }
}
