// Call lists as text, and how they are run on a session.
#![tactic(auto)]

pub mod answer;
pub mod input;
pub mod key;
pub mod line;
pub mod play;
pub mod run;
pub mod setup;
pub mod stop;
