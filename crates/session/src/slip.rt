// The slip that an opening hands out.
ghost use Rattle.std.specs.Prelude.{◌≡◌, true, false, is_ok, IfErr};
ghost use Rattle.session.specs.Slips.{without_slip};

use crate::answer::Refusal;

// A slip is owed back to a finish or a shelving. It cannot be copied, and let go only once it is taken back.
pub struct Slip {
    pub(crate) id: u32,
    // whether it was taken back, which nobody but the session does
    pub(crate) spent: bool,
}

// Nobody else may let a slip go: what this asks cannot be shown of a slip that is at hand.
impl Drop for Slip {
    fn drop(self)
        requires { self.spent ≡ true }
    {
        let Slip { id: _, spent: _ } = self;
    }
}

impl Slip {
    // The slip of a session with this charging id.
    pub(crate) fn new(id: u32) -> Slip
        ensures { result ≡ record { id = id; spent = false } }
    {
        Slip { id, spent: false }
    }

    // Takes the slip back.
    fn spend(self) {
        let mut slip = self;
        slip.spent = true;
    }

    // Takes the slip back where the call was accepted; a refusal gives it back.
    pub(crate) fn settle(self, answer: Result<usize, Refusal>) -> Result<usize, (Refusal, Slip)>
        ensures same { without_slip result ≡ answer }
        ensures alike { is_ok result ≡ is_ok answer }
        ensures back { IfErr result (λ e. e.1 ≡ self) }
    {
        match answer {
            Ok(n) => {
                self.spend();
                Ok(n)
            }
            Err(why) => Err((why, self)),
        }
    }
}
