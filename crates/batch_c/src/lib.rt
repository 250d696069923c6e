// A list of starts and usage reports on a session, for programs that are not written in Rattle.
#![tactic(auto)]

ghost use Rattle.std.specs.Prelude.{◌≡◌, Bool};
ghost use Rattle.batch.specs.Batch.{accepted_on, new_session};

use batch::Call;
use std::alloc::Global;

// Opens a new session with charging id 7 and no limits at 0, makes the calls while its link is down, and answers how many
// of them were accepted; only whether there was memory for the session is left open.
#[unsafe(no_mangle)]
pub extern "C" fn batch_accepted(heap: Global, calls: &[Call]) -> u64
    ensures { (memory : Bool) × (result ≡ accepted_on (new_session memory) calls.now) }
{
    batch::batch_accepted(heap, calls)
}
