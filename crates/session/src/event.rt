// The calls on a session.

// The octets of a usage report.
#[derive(Clone, Copy)]
pub struct Volume {
    pub up: u32,
    pub down: u32,
}

// A call, over any kind of line key. Its time, its slip and its taker stand beside it.
#[derive(Clone, Copy)]
pub enum Event<K> {
    Open,
    Start(K),
    // octets uplink and downlink
    Usage(K, u32, u32),
    End(K),
    // the number of a trigger; any may come from outside
    Change(u8),
    Tick,
    Intervene,
    Push,
    // a cause, as such a number
    Finish(u8),
    Shelve,
}
