// A transfer on its way, on an engine with legal settings: what a burst needs to know of both.
ghost use Rattle.std.specs.Prelude.{◌≡◌, true};
ghost use Rattle.kit.specs.Settings.{legal_of};
ghost use Rattle.state.specs.State.{transfer_fits};

use crate::engine::Transfer;
use kit::settings::Settings;

#[derive(Clone, Copy)]
pub struct Moving {
    pub settings: Settings,
    pub transfer: Transfer,
    pub ghost legal: { legal_of settings ≡ true },
    pub ghost fits: { transfer_fits transfer ≡ true },
}
