// IEEE 754's binary64 on bit patterns: the four operations and the conversions, each with the
// definition of crate binary64 as its contract. Every NaN result is 0x7ff8000000000000.
#![tactic(auto)]

ghost use Rattle.std.specs.Prelude.{◌≡◌, ◌*◌, ◌^◌, ◌≤◌, false, from_bits, to_bits};
ghost use Rattle.binary64.specs.Binary64.{value, finite, is_nan, sum_bits, difference_bits, product_bits, quotient_bits, to_i64, to_u64, of_whole, below_zero};

use std::num::{
    f64_from_bits_with_nan as from_bits, f64_to_bits_with_nan as to_bits, nearest_u64_to_f64,
    saturating_f64_to_i64, saturating_f64_to_u64,
};

// Whether it is a NaN's bit pattern: the definition's test, of one line on the bits.
pub fn is_nan(a: u64) -> bool
    ensures { result ≡ is_nan a }
{
    a % 0x8000000000000000 > 0x7ff0000000000000
}

// The four operations, each rounded once, to nearest with ties to even. Each is one line: one function over the operation as a
// closure would need a contract, and four callers as long as these.
#[tactic(auto, using(crate::proofs::Operations::sum_of))]
pub fn add(a: u64, b: u64) -> u64
    ensures { result ≡ sum_bits a b }
{
    to_bits(from_bits(a) + from_bits(b))
}

#[tactic(auto, using(crate::proofs::Operations::difference_of))]
pub fn sub(a: u64, b: u64) -> u64
    ensures { result ≡ difference_bits a b }
{
    to_bits(from_bits(a) - from_bits(b))
}

#[tactic(auto, using(crate::proofs::Operations::product_of))]
pub fn mul(a: u64, b: u64) -> u64
    ensures { result ≡ product_bits a b }
{
    to_bits(from_bits(a) * from_bits(b))
}

#[tactic(auto, using(crate::proofs::Operations::quotient_of))]
pub fn div(a: u64, b: u64) -> u64
    ensures { result ≡ quotient_bits a b }
{
    to_bits(from_bits(a) / from_bits(b))
}

// Toward zero, to the nearest end of the range where it is out of it, and 0 for a NaN. This and to_u64 are the library's cast: one
// function over the type would take a trait with both definitions as its law. A NaN is told first, since the cast tells it last.
#[tactic(auto, using(crate::proofs::Conversions::signed_of, crate::proofs::Conversions::nan_whole))]
pub fn to_i64(a: u64) -> i64
    ensures { result ≡ to_i64 a }
{
    if is_nan(a) {
        return 0;
    }
    saturating_f64_to_i64(from_bits(a))
}

// The same without a sign: 0 for what is below zero. The sign is told first, since the cast tells it behind the end of the range.
#[tactic(auto, using(crate::proofs::Conversions::unsigned_of, crate::proofs::Conversions::sign_whole))]
pub fn to_u64(a: u64) -> u64
    ensures { result ≡ to_u64 a }
{
    if a >= 0x8000000000000000 {
        0
    } else {
        saturating_f64_to_u64(from_bits(a))
    }
}

// The double nearest to n, ties to even: n itself where it has at most 53 digits.
#[tactic(auto, using(crate::proofs::Conversions::whole_of))]
pub fn from_u64(n: u64) -> u64
    ensures rounds { result ≡ of_whole n }
    ensures exact { n ≤ 2 ^ 53 → value result ≡ finite false (n * 2 ^ 1074) }
{
    to_bits(nearest_u64_to_f64(n))
}

// Whether it is below zero, which -0.0 and a NaN are not.
#[tactic(auto, using(crate::proofs::Conversions::below_of))]
pub fn is_below_zero(a: u64) -> bool
    ensures { result ≡ below_zero a }
{
    from_bits(a) < 0.0
}
