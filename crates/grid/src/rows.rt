// What a spectrum's row holds, samples or reflectances, and the check that none is above the limit.
ghost use Rattle.std.specs.Prelude.{◌≡◌, ◌≤◌, ℕ, length, map, List, position, true, ◌&&◌, nat_le, nat_lt};
ghost use Rattle.std.specs.List.{fold};
ghost use Rattle.grid.specs.declared.refusals.Kind.{Kind};
ghost use Rattle.grid.specs.Check.{limit_check};

use crate::refusals::{Kind, Refusal};

/// A number of a row: its value, the limit that none may be above, and what one above it is refused as.
pub trait Sampled: Copy {
    ghost value: { Self → ℕ };

    ghost values: { List Self → List ℕ };

    ghost LIMIT: { ℕ };

    ghost FAULT: { Kind };

    const LIMIT: u32;

    const FAULT: Kind;

    fn value(self) -> u32
        ensures { result ≡ value self };

    ghost each: { (xs : List Self) → values xs ≡ map value xs };

    ghost long: { (xs : List Self) → length (values xs) ≡ length xs };

    ghost low: { LIMIT ≤ 1000000 };
}

/// Samples, in µW·m⁻²·nm⁻¹.
impl Sampled for u32 {
    ghost use Rattle.std.proofs.Common.{rules, refl};
    ghost use Rattle.grid.specs.Rows.{as_they_are};
    ghost use Rattle.grid.specs.declared.refusals.Kind.TheVariants.{Sample};

    ghost value = { λ x. x };

    ghost values = { λ xs. xs };

    ghost LIMIT = { 1000000 };

    ghost FAULT = { Sample };

    ghost each = { as_they_are };

    ghost long = { λ xs. refl };

    ghost low = { Prim.search rules };

    const LIMIT: u32 = 1000000;

    const FAULT: Kind = Kind::Sample;

    fn value(self) -> u32 {
        self
    }
}

/// Reflectances, in ten-thousandths.
impl Sampled for u16 {
    ghost use Rattle.std.proofs.Common.{rules, refl};
    ghost use Rattle.grid.specs.Rows.{as_they_are};
    ghost use Rattle.grid.specs.declared.refusals.Kind.TheVariants.{Reflectance};

    ghost value = { λ x. x };

    ghost values = { λ xs. xs };

    ghost LIMIT = { 10000 };

    ghost FAULT = { Reflectance };

    ghost each = { as_they_are };

    ghost long = { λ xs. refl };

    ghost low = { Prim.search rules };

    const LIMIT: u32 = 10000;

    const FAULT: Kind = Kind::Reflectance;

    fn value(self) -> u32 {
        self as u32
    }
}

/// SAMPLE or REFLECTANCE at the first number above the limit of its kind, in a row that is no longer than a grid allows.
pub fn check_limit<N: Sampled>(row: &[N]) -> Result<(), Refusal>
    requires { length row.now ≤ 531 }
    ensures { result ≡ limit_check N.FAULT N.LIMIT (N.values row.now) }
{
    refuse_above(N::FAULT, N::LIMIT, row)
}

/// The refusal of this kind at the first number above this limit, whichever it is, in such a row. Its place is looked for only where
/// there is one.
#[inline]
#[tactic(auto, unfolding(crate::specs::Check::limit_check))]
pub fn refuse_above<N: Sampled>(kind: Kind, limit: u32, row: &[N]) -> Result<(), Refusal>
    requires { length row.now ≤ 531 }
    ensures { result ≡ limit_check kind limit (N.values row.now) }
{
    if is_within(limit, row) {
        return Ok(());
    }
    match first_above(limit, row) {
        Some(place) => Err(Refusal {
            kind,
            place: place as u32,
        }),
        None => Ok(()),
    }
}

// Whether no number is above the limit: a pass with no way out, which the machine takes several at a time.
#[inline]
fn is_within<N: Sampled>(limit: u32, row: &[N]) -> bool
    ensures { result ≡ fold (λ fine x. fine && nat_le (N.value x) limit) true row.now }
{
    row.iter().fold(true, |fine, x| fine & (x.value() <= limit))
}

fn first_above<N: Sampled>(limit: u32, row: &[N]) -> Option<usize>
    ensures { result ≡ position (λ x. nat_lt limit (N.value x)) row.now }
{
    row.iter().position(|x| limit < x.value())
}
