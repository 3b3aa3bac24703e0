//! A turn of a knob, and what becomes of a wire there.
ghost use Rattle.std.specs.Prelude.{◌≡◌, ◌≢◌};
ghost use Rattle.chest.specs.Setting.{knob_of, position_of};
ghost use Rattle.board.specs.Swing.{swing};

use crate::swing::Swing;
use chest::setting::Setting;
use wires::lead::Lead;

// A knob that goes from one position to another.
#[derive(Clone, Copy)]
pub(crate) struct Turn {
    pub from: usize,
    pub to: Setting,
    ghost turns: { from ≢ position_of to },
}

impl Turn {
    // Whether a wire starts to be live, or stops.
    pub(crate) fn swing(self, w: Lead) -> Option<Swing>
        ensures { result ≡ swing w (knob_of self.to) self.from (position_of self.to) }
    {
        let setting = w.setting?;
        let position = usize::from(setting.position);
        if usize::from(setting.knob) != self.to.knob() {
            None
        } else if position == self.from {
            Some(Swing::Stops)
        } else if position == self.to.position() {
            Some(Swing::Starts)
        } else {
            None
        }
    }
}
