// What one step reports. `None` stands in one list with the events, as its number 0 does in what C is handed: an Option of an
// event is no plainer.
use cut::Burst;
use state::engine::Engine;

#[derive(Clone, Copy)]
pub enum Event {
    None,
    Fetch(u32),
    Move(Burst),
    Fault { place: u32, bit: u32 },
    Update { current: u32, word: u32 },
    Halt { current: u32, bit: u32 },
}

// A step's event, and the state after it.
#[derive(Clone, Copy)]
pub struct Advanced {
    pub event: Event,
    pub engine: Engine,
}
