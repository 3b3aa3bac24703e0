//! The piston table: the knobs that each defined piston takes, and what was captured on it.
ghost use Rattle.std.specs.Prelude.{◌≡◌, ◌↔◌, ℕ, ◌<◌, ◌≤◌, true, false, ◌&&◌, is_some, nat_lt, Some, None, MatchOption, ◌≢◌};
ghost use Rattle.std.specs.Option.{option_map};
ghost use Rattle.console.specs.PistonTable.{piston_at, scope_of, frame_of, sound_scope};

use chest::chest::KNOBS;
pub use fittings::{PISTONS, Scope};
use fittings::{silent, told};

// The knobs that it takes, and the positions that were captured last.
#[derive(Clone, Copy)]
pub(crate) struct Piston {
    scope: Scope,
    frame: Option<[u8; KNOBS]>,
}

/// The pistons of a console by number.
#[derive(Clone, Copy)]
pub struct PistonTable {
    pistons: [Option<Piston>; PISTONS],
}

impl PistonTable {
    /// No piston is defined.
    pub fn new() -> PistonTable
        ensures { (q : ℕ) → scope_of result q ≡ None }
    {
        PistonTable { pistons: silent() }
    }

    /// The table with one piston defined and not captured, or nothing where its number is 40 or more or its scope is not sound.
    pub fn with_piston(self, piston: usize, scope: Scope) -> Option<PistonTable>
        ensures table { MatchOption result (nat_lt piston 40 && sound_scope scope.lowest scope.highest ≡ false) (λ t. (nat_lt piston 40 && sound_scope scope.lowest scope.highest ≡ true) × (scope_of t piston ≡ Some scope) × (frame_of t piston ≡ None) × ((q : ℕ) → (q ≢ piston) → (scope_of t q ≡ scope_of self q) × (frame_of t q ≡ frame_of self q))) }
        ensures defined { (is_some result ≡ true) ↔ ((piston < 40) × (scope.lowest ≤ scope.highest) × (scope.highest < 64)) }
    {
        let Scope { lowest, highest } = scope;
        if piston >= PISTONS || lowest > highest || usize::from(highest) >= KNOBS {
            return None;
        }
        let PistonTable { mut pistons } = self;
        pistons[piston] = Some(Piston { scope, frame: None });
        Some(PistonTable { pistons })
    }

    // A piston that is defined.
    fn piston(&self, piston: usize) -> Option<Piston>
        ensures { result ≡ piston_at self.now piston }
    {
        told(&self.pistons, piston)
    }

    /// The knobs that a defined piston takes.
    pub fn scope(&self, piston: usize) -> Option<Scope>
        ensures { result ≡ scope_of self.now piston }
    {
        self.piston(piston).map(|kept| kept.scope)
    }

    // The positions that were captured last.
    pub(crate) fn frame(&self, piston: usize) -> Option<[u8; KNOBS]>
        ensures { result ≡ frame_of self.now piston }
    {
        self.piston(piston)?.frame
    }

    // Keeps these positions on a defined piston, in the place of earlier ones.
    pub(crate) fn store(&mut self, piston: usize, positions: [u8; KNOBS])
        requires { is_some (scope_of self.old piston) ≡ true }
        ensures scope { (q : ℕ) → scope_of self.new q ≡ scope_of self.old q }
        ensures there { frame_of self.new piston ≡ Some positions }
        ensures others { (q : ℕ) → (q ≢ piston) → frame_of self.new q ≡ frame_of self.old q }
    {
        // lent by its number: a capture changes one piston, and the others stay as they are
        if let Some(kept) = &mut self.pistons[piston] {
            kept.frame = Some(positions);
        }
    }

    // The same scopes, with nothing captured.
    pub(crate) fn released(self) -> PistonTable
        ensures scope { (q : ℕ) → scope_of result q ≡ scope_of self q }
        ensures frame { (q : ℕ) → frame_of result q ≡ None }
    {
        PistonTable {
            pistons: self.pistons.map(released),
        }
    }
}

// A piston with nothing captured.
fn released(piston: Option<Piston>) -> Option<Piston>
    ensures { result ≡ option_map (λ kept. record { scope = kept.scope; frame = None }) piston }
{
    piston.map(|kept| Piston {
        frame: None,
        ..kept
    })
}
