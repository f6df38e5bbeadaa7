// include/belikumba.h, "Memory": what a group of bytes answers, at which byte, and in which window.
ghost use Rattle.std.specs.Prelude.{◌≡◌};
ghost use Rattle.places.specs.Locate.{located_of};
ghost use Rattle.interface.specs.Judging.{judged_for_c};

use places::locate::{locate, verdict_number};

// What C is handed: an answer's number, the verdict's, and its place and window, all 0 beside a refusal.
#[repr(C)]
#[derive(Clone, Copy)]
pub struct JudgedForC {
    pub answer: u32,
    pub verdict: u32,
    pub place: u32,
    pub window: u32,
}

pub fn belikumba_judge(size: usize, windows: &[u32], start: u32, bytes: u32) -> JudgedForC
    ensures { result ≡ judged_for_c (located_of size windows.now start bytes) }
{
    match locate(size, windows, start, bytes) {
        Ok(located) => JudgedForC {
            answer: 0,
            verdict: verdict_number(located.verdict),
            place: located.place,
            window: located.window,
        },
        Err(refusal) => JudgedForC {
            answer: refusal.number(),
            verdict: 0,
            place: 0,
            window: 0,
        },
    }
}
