// The program: a trace on standard input, its listing on standard output. It only moves bytes; what each record does
// and prints is the library's, trace::pass.
#![tactic(auto)]

ghost use Rattle.std.specs.Prelude.{◌≡◌, ◌+◌, ◌≤◌, ◌<◌, ◌^◌, length};
ghost use Rattle.flow.specs.Flow.{room, Fits};
ghost use Rattle.whole.specs.Listing.{start_memory, start_windows};
ghost use Rattle.replay.specs.Turn.{Begins, Forwards, Flows};
ghost use Rattle.replay.specs.Whole.{Reached};

use digits::tables::DigitTables;
use flow::flow::{Flow, ROOM, after_pass, opened};
use flow::input::{refill, report};
use listing::line::put_header;
use session::part::Part;
use std::io::{Stdout, Write};
use trace::pass::pass;

// A proved loop has a bound. A turn reads or prints a byte, is the last, or had its read interrupted (`Progress`), so real
// turns are bounded by the bytes. This bound is there so no sum can wrap: a turn uses at most 65,536 bytes, so positions
// stay below 2^63. At ten million turns a second it lasts 160 days; if it is used up, the program says so.
const MOST_TURNS: u64 = 140737488355328;

// How many bytes the memory has.
const MEMORY: usize = 32768;

// How many numbers the sick windows are at most, two each.
const NUMBERS: usize = 32;

fn main(rt: HostRuntime) {
    let tables = DigitTables::new();
    replay_trace(&tables, rt);
}

// Lends a replay its memory, its windows and its two buffers.
fn replay_trace(tables: &DigitTables, rt: HostRuntime) {
    let mut memory = [0u8; MEMORY];
    let mut windows = [0u32; NUMBERS];
    let mut buffer = [0u8; ROOM];
    let mut out = [0u8; ROOM];
    let flow = run(&mut memory, &mut windows, &mut buffer, tables, &mut out, rt);
    report(flow.over, rt.stderr());
}

// Turns until the replay is over.
fn run(
    memory: &mut [u8; MEMORY],
    windows: &mut [u32; NUMBERS],
    buffer: &mut [u8; ROOM],
    tables: &DigitTables,
    out: &mut [u8; ROOM],
    rt: HostRuntime,
) -> Flow
    requires { (memory.old ≡ start_memory) × (windows.old ≡ start_windows) }
    ensures { Fits result buffer.new × Reached result buffer.new memory.new windows.new }
{
    let mut flow = begin(out, rt.stdout());
    for _ in 0..MOST_TURNS {
        if flow.over {
            break;
        }
        flow = flow_on(flow, memory, windows, buffer, tables, out, rt);
    }
    flow
}

// The header comes before anything is read.
fn begin(out: &mut [u8; ROOM], stdout: Stdout) -> Flow
    ensures { Begins result out.new }
{
    let put = put_header(out, 0);
    opened(send(out, put, stdout))
}

// One turn: some input, and the lines it gives.
fn flow_on(
    flow: Flow,
    memory: &mut [u8; MEMORY],
    windows: &mut [u32; NUMBERS],
    buffer: &mut [u8; ROOM],
    tables: &DigitTables,
    out: &mut [u8; ROOM],
    rt: HostRuntime,
) -> Flow
    requires { Fits flow buffer.old × (flow.position + room < 2 ^ 64) }
    ensures { Flows flow buffer.old memory.old windows.old out.old result buffer.new memory.new windows.new out.new }
{
    let flow = refill(flow, buffer, rt.stdin(), rt.stderr());
    if flow.over {
        return flow;
    }
    forward(flow, memory, windows, buffer, tables, out, rt.stdout())
}

// The lines that the pending bytes give, and their way out.
fn forward(
    flow: Flow,
    memory: &mut [u8; MEMORY],
    windows: &mut [u32; NUMBERS],
    buffer: &[u8; ROOM],
    tables: &DigitTables,
    out: &mut [u8; ROOM],
    stdout: Stdout,
) -> Flow
    requires { Fits flow buffer.now × (flow.position + room < 2 ^ 64) }
    ensures { Forwards flow buffer.now memory.old windows.old out.old result memory.new windows.new out.new }
{
    let at = flow.at;
    let filled = flow.filled;
    let session = flow.session;
    let part = Part {
        base: flow.position,
        input: &buffer[at..filled],
        ended: flow.ended,
    };
    let other = flow.other;
    let passed = pass(session, other, part, memory, windows, tables, out);
    let sent = send(out, passed.put, stdout);
    after_pass(flow, passed, sent)
}

// Sends the first `put` bytes of the buffer; false if nobody takes them.
fn send(out: &[u8], put: usize, mut stdout: Stdout) -> bool
    requires { put ≤ length out.now }
{
    stdout.write_all(&out[..put]).is_ok()
}
