// What is told of an event: its word by number, as C is handed it, and two numbers.
ghost use Rattle.std.specs.Prelude.{◌≡◌};
ghost use Rattle.steps.specs.Report.{report_of};

use crate::event::Event;

#[derive(Clone, Copy)]
pub struct Report {
    pub number: u32,
    pub first: u32,
    pub second: u32,
}

pub fn report_of(event: Event) -> Report
    ensures { result ≡ report_of event }
{
    match event {
        Event::None => Report {
            number: 0,
            first: 0,
            second: 0,
        },
        Event::Fetch(current) => Report {
            number: 1,
            first: current,
            second: 0,
        },
        Event::Move(burst) => Report {
            number: 2,
            first: burst.start,
            second: burst.bytes,
        },
        Event::Fault { place, bit } => Report {
            number: 3,
            first: place,
            second: bit,
        },
        Event::Update { current, word } => Report {
            number: 4,
            first: current,
            second: word,
        },
        Event::Halt { current, bit } => Report {
            number: 5,
            first: current,
            second: bit,
        },
    }
}
