// FADD, FSUB, FMUL, FDIV: first bytes 23 to 26. Where the function is called with a literal first byte, the compiler keeps
// only that instruction's part. Why the integer instructions aren't the same function is said there.
#![tactic(auto)]

ghost use Rattle.std.specs.Prelude.{◌≡◌};
ghost use Rattle.machine.specs.Step as definition;
ghost use Rattle.step_core.specs.Parts.{OnStack};
ghost use Rattle.step_float.specs.Kinds.{float_of, kind_of};

use inst::ops;
use machine::{STACK_LIMIT, Trap};
use step_core::{Executed, Tested, onward, trap};

// An enum as the definition's. Were a function given, as to step_stack's `adjust`, the contract would be over what it answers,
// and each of the eight calls would have to prove that this is what the definition computes: it is proved once, below.
#[derive(Clone, Copy, PartialEq, Eq)]
pub enum Float {
    FADD,
    FSUB,
    FMUL,
    FDIV,
}

impl Float {
    // The kind of a first byte, or of any other number. In line, so that a literal one leaves nothing of it.
    #[inline(always)]
    fn of(op: u64) -> Float
        ensures { kind_of result ≡ float_of op }
    {
        match op {
            ops::FADD => Float::FADD,
            ops::FSUB => Float::FSUB,
            ops::FMUL => Float::FMUL,
            _ => Float::FDIV,
        }
    }

    // NaN operands come first. Otherwise the compiler makes one 16 byte load of both operands, and it has to wait
    // for the two pushes to be written (3.6 instead of 1.6 ns a step).
    #[tactic(auto, unfolding(machine::specs::Step::of_floats), using(crate::proofs::Laws::nan_left, crate::proofs::Laws::nan_right))]
    fn of_floats(self, a: u64, b: u64) -> u64
        ensures { result ≡ definition.of_floats (kind_of self) a b }
    {
        if float64::is_nan(a) || float64::is_nan(b) {
            return 0x7FF8000000000000;
        }
        match self {
            Float::FADD => float64::add(a, b),
            Float::FSUB => float64::sub(a, b),
            Float::FMUL => float64::mul(a, b),
            Float::FDIV => float64::div(a, b),
        }
    }
}

pub fn float_step(at: Tested, stack: &mut [u64; STACK_LIMIT], op: u64) -> Executed
    ensures { OnStack (definition.float_step (float_of op)) at.regs stack.old result stack.new }
{
    let height = at.regs.height;
    if 2 <= height {
        let last = height - 1;
        let b = stack[last];
        let a = stack[last - 1];
        let kind = Float::of(op);
        stack[last - 1] = kind.of_floats(a, b);
        onward(at.regs, last)
    } else {
        trap(at.regs, height, Trap::StackUnderflow)
    }
}
