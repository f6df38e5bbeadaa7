// The trace's way in: one read at a time, after the bytes that are pending.
ghost use Rattle.std.specs.Prelude.{◌≡◌};
ghost use Rattle.flow.specs.Flow.{Fits};
ghost use Rattle.flow.specs.Input.{Refills};

use crate::flow::{Flow, after_read, wants};
use memory::burst::copy;
use std::io::{Error, ErrorKind, Read, Stderr, Stdin, Write};

// If too little is pending, moves it to the buffer's front and reads once.
pub fn refill(flow: Flow, buffer: &mut [u8], mut stdin: Stdin, stderr: Stderr) -> Flow
    requires { Fits flow buffer.old }
    ensures { Refills flow buffer.old result buffer.new }
{
    if !wants(flow) {
        return flow;
    }
    let at = flow.at;
    let left = flow.filled - at;
    copy(buffer, at, 0, left);
    let got = stdin.read(&mut buffer[left..]);
    after_read(flow, got.map_err(|error| reported(&error, stderr)))
}

// How a read failed. If it was not interrupted, says that it failed.
fn reported(error: &Error, stderr: Stderr) -> ErrorKind {
    let kind = error.kind();
    report(kind == ErrorKind::Interrupted, stderr);
    kind
}

// Says so if the trace was not read to its end.
pub fn report(whole: bool, mut stderr: Stderr) -> bool
    ensures { result ≡ whole }
{
    if !whole {
        let text = b"replay: the trace could not be read to its end, so the listing is not whole\n";
        let _ = stderr.write_all(text);
    }
    whole
}
