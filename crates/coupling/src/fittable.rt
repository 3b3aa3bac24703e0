//! The trait of a coupling to which something is fitted.
ghost use Rattle.std.specs.Prelude.{◌≡◌, Ok, Result, OnErr, OnOk, true};
ghost use Rattle.chest.specs.Meaning.{Meaning};
ghost use Rattle.coupling.specs.Some.{is_free};
ghost use Rattle.coupling.specs.Layout.{Image, with_image};

use crate::coupling::Coupling;
use chest::chest::Chest;

/// A coupling is fitted while no key is set, so that nothing is to be shown below.
pub trait Fittable: Coupling {
    /// What is offered, as a book writes it.
    type Offer;

    /// Why it is not taken.
    type Fault;

    // What is answered to an offer over a chest that means this, and what the coupling wants below once it has taken it.
    ghost fit_answer: { Self → Meaning → Self.Offer → Result Unit Self.Fault };

    ghost fitted_image: { Self → Self.Offer → Image };

    // The coupling after an offer that it took.
    ghost takes: { Self → Self.Offer → Self → Type 0 };

    /// Fits what is offered to the coupling of a board over this chest.
    fn fit<C: Chest>(&mut self, below: &C, offer: Self::Offer) -> Result<(), Self::Fault>
        ensures answer { result ≡ fit_answer self.old (C.Chest.meaning below.now) offer }
        ensures same { OnErr result (self.new ≡ self.old) }
        ensures items { OnOk result (takes self.old offer self.new) };

    // An offer is taken only while no key is set, and then just the image changes.
    ghost free: { (k : Self) (m : Meaning) (offer : Self.Offer) → fit_answer k m offer ≡ Ok tt → is_free (Self.Coupling.layout k).register ≡ true };

    ghost changes: { (k k2 : Self) (offer : Self.Offer) → takes k offer k2 → Self.Coupling.layout k2 ≡ with_image (Self.Coupling.layout k) (fitted_image k offer) };
}
