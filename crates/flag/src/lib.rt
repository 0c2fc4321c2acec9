// The eight flags (mm's flag.rs). A machine's are one byte, a bit each: the byte crosses to the host, and the definitions are over it.
#![tactic(auto)]

ghost use Rattle.std.specs.Prelude.{◌≡◌, ◌≤◌, ◌<◌, MatchOption};
ghost use Rattle.flag.specs.Flags as spec;
ghost use Rattle.flag.specs.Jumps.{jump_of};

use inst::ops;
use std::cmp::Ordering;

// The flags in the order of their bits.
#[derive(Clone, Copy)]
pub enum Flag {
    E,
    L,
    LE,
    G,
    GE,
    NE,
    Z,
    NZ,
}

// What an order sets: LE and GE go with L and G, and equal words clear both.
const LESS: u8 = (1 << Flag::L as u8) + (1 << Flag::LE as u8) + (1 << Flag::NE as u8);

const EQUAL: u8 = 1 << Flag::E as u8;

const GREATER: u8 = (1 << Flag::G as u8) + (1 << Flag::GE as u8) + (1 << Flag::NE as u8);

const ZERO: u8 = 1 << Flag::Z as u8;

const NONZERO: u8 = 1 << Flag::NZ as u8;

impl Flag {
    // The flag that the jump with the first byte `op` tests, where that is a conditional jump.
    pub fn of_jump(op: u64) -> Option<Flag>
        ensures { MatchOption result (12 ≤ op → 19 < op) (λ flag. jump_of flag ≡ op) }
    {
        match op {
            ops::JE => Some(Flag::E),
            ops::JL => Some(Flag::L),
            ops::JLE => Some(Flag::LE),
            ops::JG => Some(Flag::G),
            ops::JGE => Some(Flag::GE),
            ops::JNE => Some(Flag::NE),
            ops::JZ => Some(Flag::Z),
            ops::JNZ => Some(Flag::NZ),
            _ => None,
        }
    }
}

#[tactic(auto, unfolding(crate::specs::Flags::cmp))]
pub fn cmp(a: u64, b: u64) -> u8
    ensures { result ≡ spec.cmp a b }
{
    let order = match a.cmp(&b) {
        Ordering::Less => LESS,
        Ordering::Equal => EQUAL,
        Ordering::Greater => GREATER,
    };
    let zero = if a == 0 { ZERO } else { NONZERO };
    order + zero
}

// Whether a flag is set, as the conditional jump tests it.
#[tactic(auto, unfolding(crate::specs::Flags::is_set))]
pub fn is_set(flags: u8, flag: Flag) -> bool
    ensures { result ≡ spec.is_set flags (jump_of flag) }
{
    (flags >> flag as u8) % 2 == 1
}
