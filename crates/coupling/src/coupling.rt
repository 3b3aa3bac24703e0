//! The trait of a coupling: what a board wants below, and how it has the chest below follow.
ghost use Rattle.std.specs.Prelude.{◌≡◌, ◌==◌, not, false};
ghost use Rattle.chest.specs.Setting.{knob_of, position_of};
ghost use Rattle.coupling.specs.Layout.{Image, Layout, Sound, Obeys, key_put, key_moves, with_knob};
ghost use Rattle.coupling.specs.KeyDesk.{layout_of};

use crate::key_desk::KeyDesk;
use chest::chest::Chest;
use chest::place::Place;
use chest::setting::Setting;

/// A coupling stands by its layout, whose image says what it wants below. Where the chest below stood so, `put` has it stand so
/// again; `turn` has its register stand so, and the board turns the knob below afterwards.
///
/// The calls ask nothing of their caller: a key that is not there or stands so already, and a knob that does not move, change
/// nothing, neither here nor below.
pub trait Coupling {
    ghost layout: { Self → Layout };

    // The image of a coupling to which nothing is fitted.
    ghost bare_image: { Image };

    // Whether nothing is fitted to it. The image does not tell: that of a wire whose keys all land below 0 is empty too.
    ghost bare: { Self → Type 0 };

    // Whether the same is fitted to both.
    ghost same_fitted: { Self → Self → Type 0 };

    /// A coupling to which nothing is fitted.
    fn over(desk: KeyDesk) -> Self
        ensures value { layout result ≡ layout_of desk bare_image }
        ensures bare { bare result };

    /// Its key desk.
    fn desk(&self) -> &KeyDesk
        ensures { layout self.now ≡ layout_of result.now (layout self.now).image };

    /// Puts a key on or off, and shows below what is then wanted.
    fn put<C: Chest>(&mut self, below: &mut C, at: Place, on: bool)
        ensures own { layout self.new ≡ key_put (layout self.old) at.row at.place on }
        ensures still { key_moves (layout self.old) at.row at.place on ≡ false → (self.new ≡ self.old) × (below.new ≡ below.old) }
        ensures kept { same_fitted self.old self.new }
        ensures obeys { Obeys C.Chest.meaning C.Chest.settled (layout self.old) (layout self.new) below.old below.new };

    /// Turns a knob here, and shows below what is then wanted; answers whether the knob moved. The knob below is the board's
    /// to turn, after that.
    fn turn<C: Chest>(&mut self, below: &mut C, to: Setting) -> bool
        ensures moved { result ≡ not ((layout self.old).panel (knob_of to) == position_of to) }
        ensures own { layout self.new ≡ with_knob (layout self.old) (knob_of to) (position_of to) }
        ensures still { result ≡ false → (self.new ≡ self.old) × (below.new ≡ below.old) }
        ensures kept { same_fitted self.old self.new }
        ensures obeys { Obeys C.Chest.meaning C.Chest.settled (layout self.old) (layout self.new) below.old below.new };

    ghost sound: { (k : Self) → Sound (layout k) };
}
