// Sets as numbers: bit j of a mask is set if j is in the set.
#![tactic(auto)]

ghost use Rattle.std.specs.Prelude.{◌≡◌, ℕ, ◌<◌};
ghost use Rattle.model.specs.Contract.{has};

// Whether bit j of a mask is set, for masks of every width.
pub fn has<M: Into<u64>>(mask: M, j: usize) -> bool
    requires within { j < 64 }
    ensures { (wide : ℕ) × M.converts mask wide × (result ≡ has wide j) }
{
    let wide: u64 = mask.into();
    (wide >> j) % 2 == 1
}
