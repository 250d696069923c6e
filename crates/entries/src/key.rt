// Line keys: what usage is counted on, and how a container names it.
ghost use Rattle.std.specs.Prelude.{◌≡◌};
ghost use Rattle.entries.specs.Keys.{Coding, Distinct, OfLines, named, services, flows};
ghost use Rattle.std.proofs.Common.{rules};

use crate::entry::*;

// The identity of a line in containers: its entry kind and its code, numbers as an entry holds them, so that the two compare.
#[derive(Clone, Copy, PartialEq, Eq, Debug)]
pub struct LineId {
    pub kind: u8,
    pub code: u64,
}

// A kind of line keys.
pub trait LineKey: Copy {
    // which keys are in range, and the line of each
    ghost coding: { Coding Self };

    // The line that the key names; none where the key is out of range.
    fn line(&self) -> Option<LineId>
        ensures { result ≡ named coding self.now };

    ghost distinct: { Distinct coding };

    ghost kinds: { OfLines coding };
}

// The largest rating group, and the largest service id.
pub const LARGEST_GROUP: u32 = 65_535;

// So many codes belong to each rating group.
const GROUP_SPAN: u64 = 131_072;

// The key of flow based charging: a rating group, and a service id that may be absent.
#[derive(Clone, Copy, PartialEq, Eq, Debug)]
pub struct ServiceKey {
    pub rating_group: u32,
    pub service_id: Option<u32>,
}

impl LineKey for ServiceKey {
    ghost coding = { services };

    ghost distinct = { Prim.search rules };

    ghost kinds = { Prim.search rules };

    fn line(&self) -> Option<LineId> {
        let id_part = match self.service_id {
            Some(id) if id > LARGEST_GROUP => return None,
            Some(id) => id as u64 + 1,
            None => 0,
        };
        if self.rating_group > LARGEST_GROUP {
            return None;
        }
        Some(LineId {
            kind: Kind::ServiceLine.number(),
            code: self.rating_group as u64 * GROUP_SPAN + id_part,
        })
    }
}

// The largest QoS flow identifier; the smallest is 1.
pub const LARGEST_QFI: u8 = 63;

// The key of QoS flow based charging: a QoS flow identifier.
#[derive(Clone, Copy, PartialEq, Eq, Debug)]
pub struct Qfi(pub u8);

impl LineKey for Qfi {
    ghost coding = { flows };

    ghost distinct = { Prim.search rules };

    ghost kinds = { Prim.search rules };

    fn line(&self) -> Option<LineId> {
        if self.0 < 1 || self.0 > LARGEST_QFI {
            return None;
        }
        Some(LineId {
            kind: Kind::QosLine.number(),
            code: self.0 as u64,
        })
    }
}
