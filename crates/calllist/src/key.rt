// Line keys as a call list writes them.
use crate::line::*;
use crate::stop::Wrong;
use entries::key::*;
use std::slice::Iter;

// A kind of keys that a call list can name.
pub trait ReadKey: LineKey {
    // The key that the next words name.
    fn read(words: &mut Iter<'_, &str>) -> Result<Self, Wrong>;
}

// A rating group and a service id, `-` where there is none.
impl ReadKey for ServiceKey {
    fn read(words: &mut Iter<'_, &str>) -> Result<ServiceKey, Wrong> {
        let rating_group = next_number(words)?;
        let service_id = match words.next().copied().ok_or(Wrong::Number)? {
            "-" => None,
            id => Some(number(id)?),
        };
        Ok(ServiceKey {
            rating_group,
            service_id,
        })
    }
}

// A QoS flow identifier. One above 255 is out of range whatever it is, and goes on as 255.
impl ReadKey for Qfi {
    fn read(words: &mut Iter<'_, &str>) -> Result<Qfi, Wrong> {
        let n: u32 = next_number(words)?;
        Ok(Qfi(u8::try_from(n).unwrap_or(u8::MAX)))
    }
}
