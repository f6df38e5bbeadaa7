// The converter: a trace on standard input, on standard output the same trace with the settings that older traces relied on
// put before it, unless it starts with its own. RULES.md, "Trace and listing". It judges nothing else.
#![tactic(auto)]

mod copying;
mod input;
mod output;

ghost use Rattle.std.specs.Prelude.{◌≡◌, ◌+◌, ◌<◌};
ghost use Rattle.convert.specs.Copying.{room, front, finished_of, Fits};
ghost use Rattle.convert.specs.Turn.{Turn};
ghost use Rattle.convert.specs.Whole.{Reached};

use copying::{Copying, ROOM, is_over, ready};
use input::refill;
use output::{begin, forward};
use std::io::{Stderr, Write};

// A proved loop has a bound. A turn is the last, reads a byte, or had its read interrupted (`Progress`), so real turns are
// bounded by the bytes. If the bound is used up, the program says so.
const MOST_TURNS: u64 = 18446744073709551615;

fn main(rt: HostRuntime) {
    let mut buffer = [0u8; ROOM];
    let state = run(&mut buffer, rt);
    report(state, rt.stderr());
}

// Turns until the copy is over.
fn run(buffer: &mut [u8; ROOM], rt: HostRuntime) -> Copying
    ensures { Reached result buffer.new }
{
    let mut state = begin(buffer);
    for _ in 0..MOST_TURNS {
        if is_over(state) {
            break;
        }
        state = turn(state, buffer, rt);
    }
    state
}

// One turn: some of the trace, and its way out once it is known what comes before it.
fn turn(state: Copying, buffer: &mut [u8; ROOM], rt: HostRuntime) -> Copying
    requires { Fits state buffer.old × (front + state.waiting < room) }
    ensures { Turn state buffer.old result buffer.new }
{
    let state = refill(state, buffer, rt.stdin());
    if !ready(state) {
        return state;
    }
    forward(state, buffer, rt.stdout())
}

// Says so if the converted trace is not whole.
fn report(state: Copying, mut stderr: Stderr) -> bool
    ensures { result ≡ finished_of state }
{
    if !state.taken {
        let text = b"convert: the converted trace could not be written whole\n";
        let _ = stderr.write_all(text);
        return false;
    }
    if !state.ended {
        let text =
            b"convert: the trace could not be read to its end, so what was written is not whole\n";
        let _ = stderr.write_all(text);
        return false;
    }
    true
}
