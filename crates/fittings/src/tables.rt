//! Tables of what is said of each row, knob or piston, where something is said.
ghost use Rattle.std.specs.Prelude.{◌≡◌, ℕ, None};
ghost use Rattle.fittings.specs.Tables.{place_at};

/// A table that says nothing.
pub fn silent<T: Copy, const N: usize>() -> [Option<T>; N]
    ensures { (k : ℕ) → place_at result k ≡ None }
{
    [None; N]
}

/// What a table says of a place: nothing past its end.
pub fn told<T: Copy>(places: &[Option<T>], at: usize) -> Option<T>
    ensures { result ≡ place_at places.now at }
{
    *places.get(at)?
}
