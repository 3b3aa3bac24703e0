//! The relay: a coupling that leads keys to places below through wires and counts the ways to each place.
ghost use Rattle.board.specs.Wiring.{wired};
ghost use Rattle.board.specs.Counts.{Exact};

use crate::swing::Swing;
use crate::turn::Turn;
use crate::ways::Ways;
use crate::wiring::Wiring;
use chest::chest::Chest;
use chest::place::Place;
use chest::setting::Setting;
use coupling::board::Board;
use coupling::coupling::Coupling;
use coupling::fittable::Fittable;
use coupling::key_desk::KeyDesk;
use fittings::Wire;
use wires::fault::BoardFault;
use wires::lead::Lead;

/// A set key leads through each live wire of its row to at most one place below, and each such way is counted. A place below
/// stands while its number is above 0: the first way puts it on, the last one off. A knob that turns gives or takes all ways of
/// the wires that wait for it. Each number is exact: one that wraps or lags behind cannot be made.
#[derive(Drop)]
pub struct Relay {
    pub(crate) wiring: Wiring,
    pub(crate) ways: Ways,
    ghost exact: { Exact ways.table (wired wiring) },
}

/// A relay over any chest.
pub type RelayBoard<C> = Board<Relay, C>;

impl Coupling for Relay {
    ghost use Rattle.std.specs.Prelude.{◌≡◌, []};
    ghost use Rattle.wires.specs.Wired.{image_with};
    ghost use Rattle.board.specs.Wiring.{wires};
    ghost use Rattle.board.specs.Relay.{relay_layout, relay_sound};

    ghost layout = { relay_layout };

    ghost bare_image = { image_with [] };

    ghost bare = { λ r. wires r.wiring ≡ [] };

    ghost same_fitted = { λ r r2. wires r2.wiring ≡ wires r.wiring };

    ghost sound = { relay_sound };

    fn over(desk: KeyDesk) -> Relay {
        Relay {
            wiring: Wiring::bare(desk),
            ways: Ways::none(),
        }
    }

    fn desk(&self) -> &KeyDesk {
        &self.wiring.desk
    }

    fn put<C: Chest>(&mut self, below: &mut C, at: Place, on: bool) {
        if self.wiring.desk.moves(at, on) {
            self.ways
                .swing_key(below, &self.wiring, at, Swing::from(on));
            self.wiring.put(at, on);
        }
    }

    fn turn<C: Chest>(&mut self, below: &mut C, to: Setting) -> bool {
        let from = self.wiring.desk.position(to.knob());
        if from == to.position() {
            return false;
        }
        self.ways.swing_knob(below, &self.wiring, Turn { from, to });
        self.wiring.turn(to);
        true
    }
}

// Wires stand in the order of their fitting, and one is taken only while no key is set.
impl Fittable for Relay {
    ghost use Rattle.std.specs.Prelude.{◌∷◌, [], ◌++◌};
    ghost use Rattle.std.proofs.Common.{ap};
    ghost use Rattle.wires.specs.Wired.{image_with, wired_layout};
    ghost use Rattle.wires.specs.Fitting.{fit_answer as wire_answer, lead_of};
    ghost use Rattle.wires.proofs.Fits.{fit_free};
    ghost use Rattle.board.specs.Wiring.{wires};
    ghost use Rattle.board.specs.Relay.{wired_of, TakesWire};

    type Offer = Wire;

    type Fault = BoardFault;

    ghost fit_answer = { λ r. wire_answer (wired_of r) };

    ghost fitted_image = { λ r w. image_with (wires r.wiring ++ lead_of w ∷ []) };

    ghost takes = { TakesWire };

    ghost free = { λ r. fit_free (wired_of r) };

    ghost changes = { λ r r2 w taken. ap wired_layout taken.0 };

    fn fit<C: Chest>(&mut self, below: &C, offer: Wire) -> Result<(), BoardFault> {
        let wiring = &self.wiring;
        if !wiring.desk.is_free() {
            return Err(BoardFault::Held);
        }
        if wiring.leads.is_full() {
            return Err(BoardFault::Full);
        }
        let lead = Lead::of(offer, &wiring.desk, below)?;
        self.wiring.add(lead);
        Ok(())
    }
}
