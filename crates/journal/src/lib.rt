#![tactic(auto)]

mod codec;
pub mod fault;
pub mod journal;
pub mod layout;
pub mod reader;
mod writing;
