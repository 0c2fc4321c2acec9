// The functions of `float64` under C's calling convention, for the oracle to link. They are called by a number, so
// that one symbol serves: an enum doesn't cross over C.
#![tactic(auto)]

ghost use Rattle.std.specs.Prelude.{◌≡◌};
ghost use Rattle.binary64.specs.Binary64.{to_i64};
ghost use Rattle.float64_c.specs.Apply.{applied};

#[unsafe(no_mangle)]
#[tactic(auto, unfolding(crate::specs::Apply::applied))]
pub extern "C" fn float64_apply(n: u64, a: u64, b: u64) -> u64
    ensures { result ≡ applied n a b }
{
    match n {
        0 => float64::add(a, b),
        1 => float64::sub(a, b),
        2 => float64::mul(a, b),
        3 => float64::div(a, b),
        4 => float64::to_u64(a),
        5 => float64::from_u64(a),
        6 => u64::from(float64::is_below_zero(a)),
        _ => u64::from(float64::is_nan(a)),
    }
}

#[unsafe(no_mangle)]
pub extern "C" fn float64_to_i64(a: u64) -> i64
    ensures { result ≡ to_i64 a }
{
    float64::to_i64(a)
}
