// The integer operations of cells (INC, DEC, IADD, ISUB, IMUL, IDIV of mm's mm.rs). Each is a line over nan's readers and makers
// of cells, so one function over the operation as a closure would only add a contract.
#![tactic(auto)]

ghost use Rattle.std.specs.Prelude.{◌≡◌, ◌%◌, ◌^◌, ◌<◌};
ghost use Rattle.integer.specs.Integers as integers;

use nan::{as_u64, from_i64, get_value, signed};

pub fn inc(cell: u64) -> u64
    ensures { result ≡ integers.inc cell }
{
    from_i64(get_value(cell) + 1)
}

pub fn dec(cell: u64) -> u64
    ensures { result ≡ integers.dec cell }
{
    from_i64(get_value(cell) - 1)
}

pub fn iadd(a: u64, b: u64) -> u64
    ensures { result ≡ integers.iadd a b }
{
    from_i64(get_value(a) + get_value(b))
}

pub fn isub(a: u64, b: u64) -> u64
    ensures { result ≡ integers.isub a b }
{
    from_i64(get_value(a) - get_value(b))
}

pub fn imul(a: u64, b: u64) -> u64
    ensures { result ≡ integers.imul a b }
{
    from_i64(signed(as_u64(a).wrapping_mul(as_u64(b))))
}

// The divisor's value isn't 0, which our own step proves: its trap 24 comes first.
pub fn idiv(a: u64, b: u64) -> u64
    requires { 0 < b % 2 ^ 48 }
    ensures { result ≡ integers.idiv a b }
{
    from_i64(get_value(a) / get_value(b))
}
