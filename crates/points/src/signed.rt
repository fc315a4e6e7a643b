// Sums and products of `i32` numbers, worked out in `i64`, which holds every one of them.
ghost use Rattle.std.specs.Prelude.{◌≡◌, ◌+ℤ◌};
ghost use Rattle.points.specs.Signed.{capped_of};

// Twice a number.
pub(crate) fn twice(x: i32) -> i64
    ensures { result ≡ x +ℤ x }
{
    let long = i64::from(x);
    long + long
}

// A number that stops at the least and at the greatest `i32`.
#[tactic(auto, using(crate::proofs::SignedLaws::capped_clamp))]
pub(crate) fn capped(x: i64) -> i32
    ensures { result ≡ capped_of x }
{
    x.clamp(-2147483648, 2147483647) as i32
}
