// Whether a head and containers make a well-formed request.
ghost use Rattle.std.specs.Prelude.{◌≡◌};
ghost use Rattle.entries.specs.Requests.{well_formed, container_formed, containers_formed, head_formed};

use crate::entry::*;

// The most containers of a request.
pub const MOST_CONTAINERS: usize = 128;

// The largest charging id.
const LARGEST_ID: u64 = 4_294_967_295;

pub fn container_formed(e: &Entry) -> bool
    ensures { result ≡ container_formed e.now }
{
    matches!(
        Kind::try_from(e.kind),
        Ok(Kind::ServiceLine | Kind::QosLine)
    ) && e.number > 0
        && e.from <= e.to
        && e.uplink.0 <= MOST_OCTETS
        && e.downlink.0 <= MOST_OCTETS
}

pub fn containers_formed(containers: &[Entry]) -> bool
    ensures { result ≡ containers_formed containers.now }
{
    containers.iter().all(container_formed)
}

// The form of a head of `n` containers.
pub fn head_formed(h: &Entry, n: usize) -> bool
    ensures { result ≡ head_formed h.now n }
{
    matches!(
        Kind::try_from(h.kind),
        Ok(Kind::Initial | Kind::Update | Kind::Termination)
    ) && h.number as usize == n
        && h.from == h.to
        && h.code <= LARGEST_ID
        && h.uplink.0 == 0
        && h.downlink.0 == 0
}

pub fn request_formed(head: &Entry, containers: &[Entry]) -> bool
    ensures { result ≡ well_formed head.now containers.now }
{
    containers.len() <= MOST_CONTAINERS
        && head_formed(head, containers.len())
        && containers_formed(containers)
}
