#![tactic(auto)]

pub mod answer;
mod calls;
mod decide;
pub mod event;
pub mod laws;
mod ledger;
mod lines;
mod making;
mod perform;
mod profile;
mod quiet;
pub mod session;
pub mod slip;
pub mod state;
pub mod thresholds;
