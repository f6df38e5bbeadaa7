// include/belikumba.h, "Monitor": one bus clock over a monitor's words.
ghost use Rattle.std.specs.Prelude.{◌≡◌};
ghost use Rattle.kit.specs.Answer.{number_of};
ghost use Rattle.interface.specs.Clocks.{clocked_seen, bus_clock_words_of, refused_of};

use clocks::monitor_words::{ClockForC, clock, load, store};
use kit::answer::Refusal;
use kit::settings::{Settings, legal};
use monitor::monitor::bus_clock;

// What C is handed: an answer's number, how many flags are up and the lowest of them, both 0 beside a refusal.
#[repr(C)]
#[derive(Clone, Copy)]
pub struct ClockedForC {
    pub answer: u32,
    pub count: u32,
    pub lowest: u32,
}

fn refused(refusal: Refusal) -> ClockedForC
    ensures { result ≡ refused_of (number_of refusal) }
{
    ClockedForC {
        answer: refusal.number(),
        count: 0,
        lowest: 0,
    }
}

pub fn belikumba_bus_clock(
    words: &mut [u32; 14],
    width: u32,
    beats: u32,
    fields: ClockForC,
) -> ClockedForC
    ensures { clocked_seen result words.new ≡ bus_clock_words_of words.old width beats fields }
{
    if !legal(Settings { width, beats }) {
        return refused(Refusal::Settings);
    }
    if words[4] > 7 {
        return refused(Refusal::State);
    }
    if fields.bits > 7 {
        return refused(Refusal::Clock);
    }
    match bus_clock(load(words), width, beats, clock(fields)) {
        Ok(clocked) => {
            store(clocked.monitor, words);
            ClockedForC {
                answer: 0,
                count: clocked.count,
                lowest: clocked.monitor.lowest(),
            }
        }
        Err(refusal) => refused(refusal),
    }
}
