#![tactic(auto)]

pub mod book;
pub mod entry;
pub mod key;
pub mod link;
pub mod making;
pub mod method;
pub mod number;
pub mod profile;
pub mod request;
pub mod sequence;
pub mod sum;
pub mod taker;
pub mod trigger;
