// RULES.md, "Numbered answers": a call is done, or it is refused; one case a refusal, named after what was wrong.
ghost use Rattle.std.specs.Prelude.{◌≡◌};
ghost use Rattle.kit.specs.Answer.{number_of, answer_number};

#[derive(Clone, Copy)]
pub enum Refusal {
    Settings,
    MemorySize,
    Offset,
    Busy,
    ErrorSet,
    WindowCount,
    PlanRange,
    PlanRoom,
    State,
    Record,
    Sequence,
    MemoryEnd,
    Clock,
    Engine,
}

// Done, or refused.
pub type Answer = Result<(), Refusal>;

impl Refusal {
    // Its number in RULES.md.
    pub fn number(self) -> u32
        ensures { result ≡ number_of self }
    {
        match self {
            Refusal::Settings => 1,
            Refusal::MemorySize => 2,
            Refusal::Offset => 3,
            Refusal::Busy => 4,
            Refusal::ErrorSet => 5,
            Refusal::WindowCount => 6,
            Refusal::PlanRange => 7,
            Refusal::PlanRoom => 8,
            Refusal::State => 9,
            Refusal::Record => 10,
            Refusal::Sequence => 11,
            Refusal::MemoryEnd => 12,
            Refusal::Clock => 13,
            Refusal::Engine => 21,
        }
    }
}

// The answer's number in RULES.md: 0 where it is done.
pub fn number(answer: Answer) -> u32
    ensures { result ≡ answer_number answer }
{
    match answer {
        Ok(()) => 0,
        Err(refusal) => refusal.number(),
    }
}
