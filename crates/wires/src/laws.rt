//! The laws of the image and of fitting, as contracts.
ghost use Rattle.std.specs.Prelude.{ℕ, List};
ghost use Rattle.chest.specs.Meaning.{Meaning};
ghost use Rattle.wires.specs.Laws.{ImageLaw};
ghost use Rattle.wires.specs.NewBoard.{NewBoard};
ghost use Rattle.wires.specs.Offered.{OfferedLaw};
ghost use Rattle.wires.specs.FirstFault.{FittingLaw};

/// What is in the image of a register, in words: it comes from set keys through live wires, and from nothing else. What holds of
/// wires as they are kept holds of them as they are offered.
pub fn image_law()
    ensures law { ImageLaw }
    ensures offered { OfferedLaw }
{}

/// A board starts with the reaches that it was asked to have, without a key and without a wire, and leaves of the chest below all
/// but its register.
pub fn making_law()
    ensures { (reaches : List ℕ) (m : Meaning) → NewBoard reaches m }
{}

/// Why a wire is refused, by the numbers that a book may write: what is wrong with it first; and where one stands that is taken.
pub fn fitting_law()
    ensures law { FittingLaw }
{}
