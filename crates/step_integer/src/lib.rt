// IADD, ISUB, IMUL, IDIV: first bytes 5 to 8. Where the function is called with a literal first byte, the compiler keeps
// only that instruction's part. The float instructions are a function of their own: these test types and IDIV its divisor,
// those the operands for NaN, so that one function would take two closures, and its contract both families of definitions.
#![tactic(auto)]

ghost use Rattle.std.specs.Prelude.{◌≡◌, true};
ghost use Rattle.nan.specs.declared.CellType.TheVariants.{I64};
ghost use Rattle.machine.specs.Step as definition;
ghost use Rattle.step_core.specs.Parts.{OnStack};
ghost use Rattle.step_integer.specs.Kinds.{integer_of, kind_of, type_trap};

use inst::ops;
use machine::{STACK_LIMIT, Trap};
use nan::CellType;
use step_core::{Executed, Tested, onward, trap};

// An enum as the definition's, and no function given, for the reason beside step_float's `Float`; besides, only IDIV tests
// its divisor.
#[derive(Clone, Copy, PartialEq, Eq)]
pub enum Integer {
    IADD,
    ISUB,
    IMUL,
    IDIV,
}

#[tactic(auto, unfolding(machine::specs::Step::divides, machine::specs::Step::of_cells), using(nan::proofs::Laws::abs_value, crate::proofs::Laws::divisor))]
impl Integer {
    // The kind of a first byte, or of any other number. In line, so that a literal one leaves nothing of it.
    #[inline(always)]
    fn of(op: u64) -> Integer
        ensures { kind_of result ≡ integer_of op }
    {
        match op {
            ops::IADD => Integer::IADD,
            ops::ISUB => Integer::ISUB,
            ops::IMUL => Integer::IMUL,
            _ => Integer::IDIV,
        }
    }

    // Only IDIV by zero has no result.
    fn divides(self, b: u64) -> bool
        ensures { result ≡ definition.divides (kind_of self) b }
    {
        match self {
            Integer::IDIV => b % nan::VALUES != 0,
            _ => true,
        }
    }

    fn of_cells(self, a: u64, b: u64) -> u64
        requires { definition.divides (kind_of self) b ≡ true }
        ensures { result ≡ definition.of_cells (kind_of self) a b }
    {
        match self {
            Integer::IADD => integer::iadd(a, b),
            Integer::ISUB => integer::isub(a, b),
            Integer::IMUL => integer::imul(a, b),
            Integer::IDIV => integer::idiv(a, b),
        }
    }
}

// Whether a cell is an I64: all exponent bits, and 2 in bits 48 to 51. One test in place of get_type's two.
#[tactic(auto, using(crate::proofs::Laws::is_i64_lem))]
fn is_i64(cell: u64) -> bool
    ensures { result ≡ definition.is I64 cell }
{
    cell / nan::VALUES % 0x8000 == 0x7FF2
}

#[tactic(auto, unfolding(machine::specs::Step::number_of), using(crate::proofs::Laws::known_but))]
fn type_known(cell: u64) -> bool
    ensures { result ≡ definition.type_known cell }
{
    nan::get_type(cell) != CellType::Unknown
}

// The trap of two operands that aren't both I64.
#[tactic(auto, unfolding(crate::specs::Kinds::type_trap))]
fn type_trap(a: u64, b: u64) -> Trap
    ensures { result ≡ type_trap a b }
{
    if type_known(a) && type_known(b) {
        Trap::NotBothI64
    } else {
        Trap::UnknownType
    }
}

// As an I64 cell is known, the test for both comes before 31.
pub fn integer_step(at: Tested, stack: &mut [u64; STACK_LIMIT], op: u64) -> Executed
    ensures { OnStack (definition.integer_step (integer_of op)) at.regs stack.old result stack.new }
{
    let height = at.regs.height;
    if height < 2 {
        return trap(at.regs, height, Trap::StackUnderflow);
    }
    let last = height - 1;
    let b = stack[last];
    let a = stack[last - 1];
    if !is_i64(a) || !is_i64(b) {
        return trap(at.regs, last, type_trap(a, b));
    }
    let kind = Integer::of(op);
    if !kind.divides(b) {
        return trap(at.regs, last, Trap::DivisionByZero);
    }
    stack[last - 1] = kind.of_cells(a, b);
    onward(at.regs, last)
}
