// The next record: read, judged and applied, its line put; a WR or an AR with those of its kind that follow.
ghost use Rattle.std.specs.Prelude.{◌≡◌, true, false, ◌+◌, ◌-◌, ◌≤◌, length};
ghost use Rattle.session.specs.declared.Mode.TheVariants.{Records};
ghost use Rattle.kit.specs.Answer.{number_of};
ghost use Rattle.session.specs.Chosen.{called_of};
ghost use Rattle.session.specs.Effect.{bad_of};
ghost use Rattle.session.specs.Turn.{stale_of};
ghost use Rattle.session.specs.Pass.{ready_of, TakesBeside};
ghost use Rattle.records.specs.Tells.{Tells};

use digits::tables::DigitTables;
use effects::effect;
use kit::answer::Refusal;
use listing::line::put_line;
use record::read;
use record::reading::Body;
use session::bad::bad_line;
use session::chosen::is_two;
use session::part::Part;
use session::{Effect, Mode, Passed, Session, under_way};
use watch::clocks;
use writes::writes;

// Puts a record's line; an ST has none of its own.
fn tell(effect: Effect, at: usize, tables: &DigitTables, out: &mut [u8], put: usize) -> Passed
    requires { put + 64 ≤ length out.old }
    ensures { Tells effect at out.old put result out.new }
{
    let session = effect.session;
    let mode = session.mode;
    if under_way(mode) {
        return Passed { session, at, put };
    }
    let line = effect.line;
    let put = put_line(tables, out, put, line);
    Passed { session, at, put }
}

// Puts the last line. It is apart from `tell` so that that one has one caller, and is compiled into it.
fn refuse(
    session: Session,
    refusal: Refusal,
    position: u64,
    at: usize,
    tables: &DigitTables,
    out: &mut [u8],
    put: usize,
) -> Passed
    requires { put + 64 ≤ length out.old }
    ensures { Tells (bad_of session (number_of refusal) position) at out.old put result out.new }
{
    let line = bad_line(session.sequence, Err(refusal), position);
    let put = put_line(tables, out, put, line);
    let session = Session {
        mode: Mode::Over,
        ..session
    };
    Passed { session, at, put }
}

// Whether a sequence number is not above the last one. CF and C2 come first, and may carry 0.
fn stale(before: u32, sequence: u32, body: Body) -> bool
    ensures { result ≡ stale_of before sequence body }
{
    sequence <= before && !matches!(body, Body::Settings { .. })
}

// A record that is no record, or out of sequence, is the last line; so is one for an engine that is not there.
pub fn records(
    session: Session,
    part: Part<'_>,
    at: usize,
    memory: &mut [u8],
    windows: &mut [u32],
    tables: &DigitTables,
    out: &mut [u8],
    put: usize,
) -> Passed
    requires mode_value { (session.mode ≡ Records) × (ready_of Records (length part.input.now - at) part.ended ≡ true) × (called_of session.chosen part.input.now at ≡ false) }
    requires at_in_bounds { at ≤ length part.input.now }
    requires in_bounds { 32 ≤ length windows.old }
    requires put_in_bounds { put + 64 ≤ length out.old }
    ensures { TakesBeside part.entry.base part.entry.input.now part.entry.ended session at memory.old windows.old out.old put result memory.new windows.new out.new }
{
    let position = part.base + at as u64;
    let chosen = session.chosen;
    let two = is_two(chosen);
    let Some((record, next)) = read(part.input, at, position == 0, two) else {
        return refuse(session, Refusal::Record, position, at, tables, out, put);
    };
    let sequence = record.sequence;
    let body = record.body;
    if stale(session.sequence, sequence, body) {
        return refuse(session, Refusal::Sequence, position, at, tables, out, put);
    }
    let effect = match body {
        Body::Settings { two, width, beats } => effect::settings(
            session, sequence, two, width, beats, position,
        ),
        Body::Memory { address, length } => effect::memory(
            session,
            sequence,
            address,
            length,
            position,
            part.input,
            at + 12,
            memory,
        ),
        Body::Window { start, length } => effect::window(
            session, sequence, start, length, position, windows,
        ),
        Body::Write { offset, value } => {
            return writes(
                session, sequence, offset, value, part, at, next, tables, out, put,
            );
        }
        Body::Read { offset } => effect::register_read(session, sequence, offset),
        Body::Steps { count } => effect::steps(session, sequence, count),
        Body::Astray => {
            return refuse(session, Refusal::Engine, position, next, tables, out, put);
        }
        Body::Clock { bits, clock } => {
            return clocks(
                session, sequence, bits, clock, part, at, next, tables, out, put,
            );
        }
    };
    tell(effect, next, tables, out, put)
}
