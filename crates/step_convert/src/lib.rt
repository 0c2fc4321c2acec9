// F2I, F2U, I2F, I2U, U2I, U2F: first bytes 31 to 36. Where the function is called with a literal first byte, the compiler
// keeps only that instruction's part.
#![tactic(auto)]

ghost use Rattle.std.specs.Prelude.{◌≡◌, true, false, ◌*◌, ◌^◌, nat_abs};
ghost use Rattle.binary64.specs.Binary64 as binary64;
ghost use Rattle.nan.specs.Cells as cells;
ghost use Rattle.nan.specs.declared.CellType.TheVariants.{F64};
ghost use Rattle.machine.specs.Step as definition;
ghost use Rattle.step_core.specs.Parts.{OnStack};
ghost use Rattle.step_convert.specs.Kinds.{conversion_of, kind_of, converted};

use inst::ops;
use machine::{STACK_LIMIT, Trap};
use nan::CellType;
use step_core::{Executed, Tested, onward, trap};

#[derive(Clone, Copy, PartialEq, Eq)]
pub enum Conversion {
    F2I,
    F2U,
    I2F,
    I2U,
    U2I,
    U2F,
}

#[tactic(auto, unfolding(crate::specs::Kinds::converted, machine::specs::Step::rule_of, machine::specs::Step::number_of), using(crate::proofs::Laws::is_minus, crate::proofs::Laws::not_minus))]
impl Conversion {
    // The kind of a first byte, or of any other number. In line, so that a literal one leaves nothing of it.
    #[inline(always)]
    fn of(op: u64) -> Conversion
        ensures { kind_of result ≡ conversion_of op }
    {
        match op {
            ops::F2I => Conversion::F2I,
            ops::F2U => Conversion::F2U,
            ops::I2F => Conversion::I2F,
            ops::I2U => Conversion::I2U,
            ops::U2I => Conversion::U2I,
            _ => Conversion::U2F,
        }
    }

    // What the conversion makes of an F64.
    fn of_float(self, cell: u64) -> Result<u64, Trap>
        ensures { cells.type_of cell ≡ F64 → result ≡ converted (kind_of self) cell }
    {
        match self {
            Conversion::F2I => Ok(nan::from_i64(float64::to_i64(cell))),
            Conversion::F2U if float64::is_below_zero(cell) => Err(Trap::NegativeConversion),
            Conversion::F2U => Ok(nan::from_u64(float64::to_u64(cell))),
            _ => Err(Trap::WrongType),
        }
    }

    // What it makes of an I64 or a U64.
    fn of_whole(self, cell: u64) -> Result<u64, Trap>
        ensures { definition.whole cell ≡ true → result ≡ converted (kind_of self) cell }
    {
        let value = nan::get_value(cell);
        match self {
            Conversion::I2F if value < 0 => Err(Trap::NegativeConversion),
            Conversion::I2F => Ok(i2f(cell)),
            Conversion::I2U if value < 0 => Err(Trap::NegativeConversion),
            Conversion::I2U => Ok(nan::from_u64(nan::as_u64(cell))),
            Conversion::U2I => Ok(nan::from_i64(value)),
            Conversion::U2F => Ok(float64::from_u64(nan::as_u64(cell))),
            _ => Err(Trap::WrongType),
        }
    }

    fn of_cell(self, cell: u64) -> Result<u64, Trap>
        ensures { result ≡ converted (kind_of self) cell }
    {
        match nan::get_type(cell) {
            CellType::F64 => self.of_float(cell),
            CellType::I64 | CellType::U64 => self.of_whole(cell),
            CellType::Ptr => Err(Trap::WrongType),
            CellType::Unknown => Err(Trap::UnknownType),
        }
    }

    // The hint lets the compiler take F2I, the largest, into the quick loop: a call there costs every image.
    #[inline]
    fn convert(self, at: Tested, stack: &mut [u64; STACK_LIMIT]) -> Executed
        ensures { OnStack (definition.convert (kind_of self)) at.regs stack.old result stack.new }
    {
        let height = at.regs.height;
        if height == 0 {
            return trap(at.regs, height, Trap::StackUnderflow);
        }
        let last = height - 1;
        match self.of_cell(stack[last]) {
            Ok(cell) => {
                stack[last] = cell;
                onward(at.regs, height)
            }
            Err(cause) => trap(at.regs, last, cause),
        }
    }
}

// I2F of a value that isn't below zero: the value is its magnitude, and a magnitude of 48 bits is not rounded.
#[tactic(auto, using(nan::proofs::Laws::abs_value))]
fn i2f(cell: u64) -> u64
    ensures rounds { result ≡ binary64.of_whole (nat_abs (cells.value cell)) }
    ensures exact { binary64.value result ≡ binary64.finite false (nat_abs (cells.value cell) * 2 ^ 1074) }
{
    float64::from_u64(cell % nan::VALUES)
}

// In line, so that where the first byte is a literal, the kind is one too.
#[inline(always)]
pub fn convert(at: Tested, stack: &mut [u64; STACK_LIMIT], op: u64) -> Executed
    ensures { OnStack (definition.convert (conversion_of op)) at.regs stack.old result stack.new }
{
    Conversion::of(op).convert(at, stack)
}
