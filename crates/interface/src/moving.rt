// include/belikumba.h, "Engine": a step in the midst of a transfer whose sides both increment. A burst that goes on changes
// the bytes moved alone, so that the engine need be neither read nor stored.
ghost use Rattle.std.specs.Prelude.{◌≡◌};
ghost use Rattle.interface.specs.Moving.{goes_on_of, MovesWords};

use cut::Burst;
use kit::limits::{MOST_MEMORY, MOST_WINDOWS};
use kit::settings::legal;
use moves::move_on::move_on;
use spelling::moves;
use state::moving::Moving;
use words::engine_words::{settings, transfer};

// Whether a step is not refused, and the engine is in the midst of such a transfer.
fn goes_on(words: &[u32; 22], size: usize, windows: usize) -> bool
    ensures { result ≡ goes_on_of words.now size windows }
{
    legal(settings(words))
        & (size <= MOST_MEMORY)
        & (windows <= MOST_WINDOWS)
        & moves(words)
        & (words[20] == 0)
        & (words[21] == 0)
}

// The burst of a step that changes no word but word 19, or none, with nothing done.
pub fn move_on_words(words: &mut [u32; 22], memory: &mut [u8], windows: &[u32]) -> Option<Burst>
    ensures { MovesWords words.old memory.old windows.now result words.new memory.new }
{
    if !goes_on(words, memory.len(), windows.len() / 2) {
        return None;
    }
    let moving = Moving {
        settings: settings(words),
        transfer: transfer(words),
    };
    let burst = move_on(moving, memory, windows)?;
    words[19] += burst.bytes;
    Some(burst)
}
