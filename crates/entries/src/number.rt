// Numbers that stand for something.
use thiserror::Error;

// A number for which nothing stands.
#[derive(Clone, Copy, PartialEq, Eq, Debug, Error)]
#[error("nothing has this number")]
pub struct UnknownNumber;
