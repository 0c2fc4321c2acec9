// The quick way through known instructions: those whose record was tested and whose name was found during this run. A
// loop with no call left in it once compiled. It takes only steps that succeed and dump nothing; at any other it stops
// with nothing changed, and the general step takes that one. Only the run calls it.
#![tactic(auto)]

ghost use Rattle.std.specs.Prelude.{◌≡◌, false, ◌+◌, ◌*◌, ◌<◌, get_or};
ghost use Rattle.machine.specs.Lookup.{leads_to};
ghost use Rattle.machine.specs.Step as definition;
ghost use Rattle.flag.specs.Flags.{is_set};
ghost use Rattle.flag.specs.Jumps.{jump_of};
ghost use Rattle.step_core.specs.Parts.{Inside, OnRegisters, of_parts};
ghost use Rattle.tables.specs.Tables.{number_at};
ghost use Rattle.known.specs.Known.{unknown, Listed};
ghost use Rattle.quick.specs.Quick.{ExecutesKnown, success_of};
ghost use Rattle.quick.specs.Courses.{Leads};

use flag::Flag;
use inst::ops;
use known::{Entry, Known};
use step_convert::convert;
use step_core::{Arrays, Executed, Registers, Tested, moved, onward};
use step_float::float_step;
use step_flow::calls::{call, ret};
use step_flow::jumps::compare;
use step_integer::integer_step;
use step_stack::cells;
use tables::Code;

// The machine's numbers and flags after an instruction's step, if its answer is success. Whatever else it answers, it has
// changed none of the arrays.
#[tactic(auto, unfolding(crate::specs::Quick::success_of))]
fn success(answer: Executed, flags: u8) -> Option<(Registers, u8)>
    ensures { result ≡ success_of answer flags }
{
    match answer {
        Executed::Next(regs) => Some((regs, flags)),
        Executed::Compared(regs, flags) => Some((regs, flags)),
        Executed::Dump(..) | Executed::Halt(_) | Executed::Trap(..) | Executed::Ill => None,
    }
}

// A conditional jump whose target is known. The target is read only where the jump is taken: so the jump stays a branch,
// which the processor predicts, and doesn't become a choice between two numbers that waits for the flags.
fn jump_if_known(at: Tested, flags: u8, tested: Flag, entry: Entry<'_>) -> Executed
    ensures { OnRegisters (definition.jump_if (is_set flags (jump_of tested)) (leads_to (get_or entry.entry.known.now.targets entry.entry.at 0))) at.regs result }
{
    if flag::is_set(flags, tested) {
        moved(at.regs, entry.target())
    } else {
        onward(at.regs, at.regs.height)
    }
}

// The instruction at the pointer, whose first byte is `key`. Each first byte has an arm of its own, with no range and no
// `|`, and nothing is computed before the match: so it is long, and becomes one jump through a table (1.5 instead of 2.0
// ns a step). Only success counts, so what has no arm is answered as 34 is.
// PUSH, the most frequent, is last: the compiler lets the last arm run on into the next turn, without a jump.
// It isn't the general step's match behind other jumps: that one has `|` and takes the operand before the match, and each
// of the two has one caller only, so that the compiler takes it in there.
fn execute_known(
    key: u64,
    code: Code<'_>,
    entry: Entry<'_>,
    flags: u8,
    at: Tested,
    arrays: &mut Arrays,
) -> Executed
    requires { (key ≡ unknown → ⊥) → at.regs.ip < code.count }
    ensures { ExecutesKnown key (number_at code.entry.insts.now (at.regs.ip * 4 + 1)) (get_or entry.entry.known.now.targets entry.entry.at 0) at.regs flags arrays.old.stack arrays.old.calls arrays.old.memory (success_of result flags) arrays.new.stack arrays.new.calls arrays.new.memory }
{
    let ip = at.regs.ip;
    match key {
        ops::NOP => onward(at.regs, at.regs.height),
        ops::POP => cells::pop(at),
        ops::INC => cells::adjust(at, &mut arrays.stack, integer::inc),
        ops::DEC => cells::adjust(at, &mut arrays.stack, integer::dec),
        ops::IADD => integer_step(at, &mut arrays.stack, ops::IADD),
        ops::ISUB => integer_step(at, &mut arrays.stack, ops::ISUB),
        ops::IMUL => integer_step(at, &mut arrays.stack, ops::IMUL),
        ops::IDIV => integer_step(at, &mut arrays.stack, ops::IDIV),
        ops::CMP => compare(at, &arrays.stack),
        ops::SWAP => cells::swap(at, &mut arrays.stack, code.operand(ip)),
        ops::DUP => cells::dup(at, &mut arrays.stack, code.operand(ip)),
        ops::JE => jump_if_known(at, flags, Flag::E, entry),
        ops::JL => jump_if_known(at, flags, Flag::L, entry),
        ops::JLE => jump_if_known(at, flags, Flag::LE, entry),
        ops::JG => jump_if_known(at, flags, Flag::G, entry),
        ops::JGE => jump_if_known(at, flags, Flag::GE, entry),
        ops::JNE => jump_if_known(at, flags, Flag::NE, entry),
        ops::JZ => jump_if_known(at, flags, Flag::Z, entry),
        ops::JNZ => jump_if_known(at, flags, Flag::NZ, entry),
        ops::JMP => moved(at.regs, entry.target()),
        ops::LABEL => onward(at.regs, at.regs.height),
        ops::BOT => cells::bot(at, &mut arrays.stack),
        ops::FADD => float_step(at, &mut arrays.stack, ops::FADD),
        ops::FSUB => float_step(at, &mut arrays.stack, ops::FSUB),
        ops::FMUL => float_step(at, &mut arrays.stack, ops::FMUL),
        ops::FDIV => float_step(at, &mut arrays.stack, ops::FDIV),
        ops::CALL => call(at, &mut arrays.calls, Some(Ok(entry.target()))),
        ops::RET => ret(at, &arrays.calls),
        ops::EXTERN => onward(at.regs, at.regs.height),
        ops::F2I => convert(at, &mut arrays.stack, ops::F2I),
        ops::F2U => convert(at, &mut arrays.stack, ops::F2U),
        ops::I2F => convert(at, &mut arrays.stack, ops::I2F),
        ops::I2U => convert(at, &mut arrays.stack, ops::I2U),
        ops::U2I => convert(at, &mut arrays.stack, ops::U2I),
        ops::U2F => convert(at, &mut arrays.stack, ops::U2F),
        ops::NATIVE => onward(at.regs, at.regs.height),
        ops::READ8 => step_memory::read(at, &mut arrays.stack, &arrays.memory),
        ops::WRITE8 => step_memory::write(at, &arrays.stack, &mut arrays.memory),
        ops::READ16 => step_memory::read(at, &mut arrays.stack, &arrays.memory),
        ops::WRITE16 => step_memory::write(at, &arrays.stack, &mut arrays.memory),
        ops::READ32 => step_memory::read(at, &mut arrays.stack, &arrays.memory),
        ops::WRITE32 => step_memory::write(at, &arrays.stack, &mut arrays.memory),
        ops::READ64 => step_memory::read(at, &mut arrays.stack, &arrays.memory),
        ops::WRITE64 => step_memory::write(at, &arrays.stack, &mut arrays.memory),
        ops::PUSH => cells::push(at, &mut arrays.stack, code.operand(ip)),
        _ => Executed::Ill,
    }
}

// How far a run has come: the machine's numbers and flags, and the steps that are left. Any machine's numbers may stand
// in it, those that number 34 calls ill too, so the limits of the heights are no part of it.
#[derive(Clone, Copy)]
pub struct Reached {
    pub regs: Registers,
    pub left: u64,
    pub flags: u8,
}

// As far as all is known, at most as many steps as are left. The loop keeps: from the machine at the start, the steps that
// are fewer left dump nothing, don't trap and lead to the machine of registers, flags and the arrays. Steps are counted
// down: one machine instruction counts and tests, and those left are the answer, which a `for` would work out of its index.
pub fn run_known(code: Code<'_>, known: &Known, from: Reached, arrays: &mut Arrays) -> Reached
    requires { Inside from.regs × Listed code.count known.now }
    ensures { Leads code.entry.insts.now known.now (of_parts from.regs from.flags arrays.old.stack arrays.old.calls arrays.old.memory false) from.left result arrays.new.stack arrays.new.calls arrays.new.memory }
{
    let mut reached = from;
    while reached.left > 0 {
        let Some(entry) = known.entry(reached.regs.ip) else {
            break;
        };
        let key = u64::from(entry.key());
        let at = Tested { regs: reached.regs };
        let answer = execute_known(key, code, entry, reached.flags, at, arrays);
        let Some((regs, flags)) = success(answer, reached.flags) else {
            break;
        };
        reached = Reached {
            regs,
            flags,
            left: reached.left - 1,
        };
    }
    reached
}
