//! The laws of a chest's calls and of sets of places, as contracts.
ghost use Rattle.std.specs.Prelude.{ℕ, List};
ghost use Rattle.chest.specs.Places.{Counting};
ghost use Rattle.chest.specs.Meaning.{Meaning};
ghost use Rattle.chest.specs.Calls.{SetLaw, TurnLaw, StrobeLaw, AskLaw, TableLaw};

/// The number of places at which two sets differ: none against itself, the same either way round,
/// the sum of those started and those stopped, and at most one where one place was put.
pub fn counting_law()
    ensures { Counting }
{}

/// What each call of a chest is refused for, what a done one changes and what a refused one does not, whatever the chest means.
pub fn calls_law()
    ensures set { (m : Meaning) (row place : ℕ) → SetLaw m row place }
    ensures turn { (m : Meaning) (knob position : ℕ) → TurnLaw m knob position }
    ensures strobe { (m : Meaning) → StrobeLaw m }
    ensures ask { (m : Meaning) → AskLaw m }
    ensures table { (table : List ℕ) → TableLaw table }
{}
