// A session without its method: numbers, triggers, lines and waiting containers.
ghost use Rattle.std.specs.Prelude.{◌≡◌, ◌≤◌, true, vec_len, vec_capacity};
ghost use Rattle.entries.specs.Requests.{containers_formed};
ghost use Rattle.session.specs.Sound.{live, sound_lines, volume_of_all};

use crate::state::*;
use entries::entry::Entry;
use entries::trigger::TRIGGERS;

// The most lines, and the most waiting containers: their memory is reserved at the making.
pub(crate) const MOST_LINES: usize = 32;

pub(crate) const MOST_WAITING: usize = 128;

#[derive(Drop)]
pub(crate) struct Ledger {
    pub(crate) id: u32,
    pub(crate) settings: [Setting; TRIGGERS],
    pub(crate) marks: Marks,
    // the time of the last accepted call
    pub(crate) last: u32,
    // how many containers were closed
    pub(crate) closed: u32,
    // whether a declined report is to be offered again, made anew of what waits then
    pub(crate) owed: bool,
    pub(crate) lines: Vec<Line>,
    pub(crate) waiting: Vec<Entry>,
    ghost line_room: { (live marks.phase ≡ true → 32 ≤ vec_capacity lines) },
    ghost waiting_room: { (live marks.phase ≡ true → 128 ≤ vec_capacity waiting) },
    ghost numbered: { closed ≤ 4294967295 },
    ghost few: { vec_len lines ≤ 32 },
    ghost short: { vec_len waiting ≤ 128 },
    ghost sound: { sound_lines last lines.items ≡ true },
    ghost formed: { containers_formed waiting.items ≡ true },
    ghost counted: { marks.volume ≤ volume_of_all lines.items },
}
