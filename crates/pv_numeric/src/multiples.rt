ghost use Rattle.std.specs.Prelude.{◌≡◌};
ghost use Rattle.pv_numeric.specs.Multiples as spec;

/// Whether `n` is some whole number times `m`.
#[tactic(auto, unfolding(crate::specs::Multiples::is_multiple))]
pub fn is_multiple(n: i128, m: i128) -> bool
    ensures { result ≡ spec.is_multiple n m }
{
    let size = n.unsigned_abs();
    let step = m.unsigned_abs();
    if step == 0 {
        size == 0
    } else {
        size % step == 0
    }
}
