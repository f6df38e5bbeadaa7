// The functions of include/belikumba.h, as C calls them: each is the function of the same name in the crate interface, with the
// same clauses. What they hand back is declared there.
#![tactic(auto)]

ghost use Rattle.std.specs.Prelude.{◌≡◌};
ghost use Rattle.places.specs.Locate.{located_of};
ghost use Rattle.plan.specs.Plan.{plan_bytes_of, counted_of};
ghost use Rattle.interface.specs.Calls.{value_seen, read_words_of, write_words_of, words_seen, line_words_of, step_words_of, step_words_seen, run_words_of, run_words_seen};
ghost use Rattle.interface.specs.Clocks.{clocked_seen, bus_clock_words_of};
ghost use Rattle.interface.specs.Judging.{judged_for_c};
ghost use Rattle.interface.specs.Planning.{planned_seen, counted_seen};

use clocks::monitor_words::ClockForC;
use interface::accesses::{self, ValueForC};
use interface::bus::{self, ClockedForC};
use interface::judging::{self, JudgedForC};
use interface::planning::{self, PlannedForC};
use interface::stepping::{self, RanForC, SteppedForC};

// ---- Plan

#[unsafe(no_mangle)]
pub extern "C" fn belikumba_plan(
    width: u32,
    beats: u32,
    start: u32,
    count: u32,
    places: &mut [u8],
) -> PlannedForC
    ensures { planned_seen result places.new ≡ plan_bytes_of width beats start count places.old }
{
    planning::belikumba_plan(width, beats, start, count, places)
}

#[unsafe(no_mangle)]
pub extern "C" fn belikumba_count(width: u32, beats: u32, start: u32, count: u32) -> PlannedForC
    ensures { counted_seen result ≡ counted_of width beats start count }
{
    planning::belikumba_count(width, beats, start, count)
}

// ---- Memory

#[unsafe(no_mangle)]
pub extern "C" fn belikumba_judge(
    size: usize,
    windows: &[u32],
    start: u32,
    bytes: u32,
) -> JudgedForC
    ensures { result ≡ judged_for_c (located_of size windows.now start bytes) }
{
    judging::belikumba_judge(size, windows, start, bytes)
}

// ---- Engine

#[unsafe(no_mangle)]
pub extern "C" fn belikumba_write(words: &mut [u32; 22], offset: u32, value: u32) -> u32
    ensures { words_seen result words.new ≡ write_words_of words.old offset value }
{
    accesses::belikumba_write(words, offset, value)
}

#[unsafe(no_mangle)]
pub extern "C" fn belikumba_read(words: &[u32; 22], offset: u32) -> ValueForC
    ensures { value_seen result ≡ read_words_of words.now offset }
{
    accesses::belikumba_read(words, offset)
}

#[unsafe(no_mangle)]
pub extern "C" fn belikumba_interrupt_line(words: &[u32; 22]) -> ValueForC
    ensures { value_seen result ≡ line_words_of words.now }
{
    accesses::belikumba_interrupt_line(words)
}

#[unsafe(no_mangle)]
pub extern "C" fn belikumba_step(
    words: &mut [u32; 22],
    memory: &mut [u8],
    windows: &[u32],
) -> SteppedForC
    ensures { step_words_seen result words.new memory.new ≡ step_words_of words.old memory.old windows.now }
{
    stepping::belikumba_step(words, memory, windows)
}

#[unsafe(no_mangle)]
pub extern "C" fn belikumba_run(
    words: &mut [u32; 22],
    memory: &mut [u8],
    windows: &[u32],
    most: u16,
) -> RanForC
    ensures { run_words_seen result words.new memory.new ≡ run_words_of most words.old memory.old windows.now }
{
    stepping::belikumba_run(words, memory, windows, most)
}

// ---- Monitor

#[unsafe(no_mangle)]
pub extern "C" fn belikumba_bus_clock(
    words: &mut [u32; 14],
    width: u32,
    beats: u32,
    fields: ClockForC,
) -> ClockedForC
    ensures { clocked_seen result words.new ≡ bus_clock_words_of words.old width beats fields }
{
    bus::belikumba_bus_clock(words, width, beats, fields)
}
