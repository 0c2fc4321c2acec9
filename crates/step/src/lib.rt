// One step as the definition has it (execute_instruction of mm's mm.rs): the record at the pointer is tested, a name is
// looked up, the instruction executed. What is found out is kept. It doesn't hold the label table: where it needs a lookup
// it asks for one, and is called again with what was found. Only the run calls it.
#![tactic(auto)]

ghost use Rattle.std.specs.Prelude.{◌≡◌, true, false};
ghost use Rattle.step_core.specs.Parts.{Inside, found_of};
ghost use Rattle.known.specs.Known.{looks_up};
ghost use Rattle.step.specs.Steps.{lent, Jumps, Executes, Tries};

use flag::Flag;
use inst::{ops, part};
use known::{Known, looks_up};
use machine::CALL_LIMIT;
use step_convert::convert;
use step_core::{Arrays, Executed, LookupError, Registers, Tested, onward};
use step_float::float_step;
use step_flow::calls::{call, ret};
use step_flow::dumps::dump;
use step_flow::jumps::{compare, jump, jump_if};
use step_integer::integer_step;
use step_stack::cells;
use tables::Code;

// A jump or CALL, by what its lookup found. There are three ways, and each takes something else: CALL the call stack, a
// conditional jump its flag and the flags. So it is no match over the first bytes.
fn execute_jump(
    op: u64,
    found: Result<usize, LookupError>,
    flags: u8,
    at: Tested,
    calls: &mut [u64; CALL_LIMIT],
) -> Executed
    requires { looks_up op ≡ true }
    ensures { Jumps op (found_of found) at.regs flags calls.old result calls.new }
{
    if op == ops::CALL {
        return call(at, calls, Some(found));
    }
    match Flag::of_jump(op) {
        Some(condition) => jump_if(at, flags, condition, Some(found)),
        None => jump(at, Some(found)),
    }
}

// Any other instruction. One arm for each first byte, in the definition's order, however long that is: the compiler makes one
// jump through a table of it, where closures or a table of functions would be calls.
fn execute_instruction(op: u64, v: u64, at: Tested, arrays: &mut Arrays) -> Executed
    requires { looks_up op ≡ false }
    ensures { Executes op v at.regs arrays.old result arrays.new }
{
    match op {
        ops::PUSH => cells::push(at, &mut arrays.stack, v),
        ops::POP => cells::pop(at),
        ops::INC => cells::adjust(at, &mut arrays.stack, integer::inc),
        ops::DEC => cells::adjust(at, &mut arrays.stack, integer::dec),
        ops::IADD => integer_step(at, &mut arrays.stack, ops::IADD),
        ops::ISUB => integer_step(at, &mut arrays.stack, ops::ISUB),
        ops::IMUL => integer_step(at, &mut arrays.stack, ops::IMUL),
        ops::IDIV => integer_step(at, &mut arrays.stack, ops::IDIV),
        ops::CMP => compare(at, &arrays.stack),
        ops::SWAP => cells::swap(at, &mut arrays.stack, v),
        ops::DUP => cells::dup(at, &mut arrays.stack, v),
        ops::BOT => cells::bot(at, &mut arrays.stack),
        ops::FADD => float_step(at, &mut arrays.stack, ops::FADD),
        ops::FSUB => float_step(at, &mut arrays.stack, ops::FSUB),
        ops::FMUL => float_step(at, &mut arrays.stack, ops::FMUL),
        ops::FDIV => float_step(at, &mut arrays.stack, ops::FDIV),
        ops::IDMP | ops::FDMP => dump(at, &arrays.stack, v),
        ops::RET => ret(at, &arrays.calls),
        ops::F2I => convert(at, &mut arrays.stack, ops::F2I),
        ops::F2U => convert(at, &mut arrays.stack, ops::F2U),
        ops::I2F => convert(at, &mut arrays.stack, ops::I2F),
        ops::I2U => convert(at, &mut arrays.stack, ops::I2U),
        ops::U2I => convert(at, &mut arrays.stack, ops::U2I),
        ops::U2F => convert(at, &mut arrays.stack, ops::U2F),
        ops::READ8 | ops::READ16 | ops::READ32 | ops::READ64 => step_memory::read(
            at,
            &mut arrays.stack,
            &arrays.memory,
        ),
        ops::WRITE8 | ops::WRITE16 | ops::WRITE32 | ops::WRITE64 => step_memory::write(
            at,
            &arrays.stack,
            &mut arrays.memory,
        ),
        ops::HALT => Executed::Halt(at.regs),
        _ => onward(at.regs, at.regs.height),
    }
}

// The step at the pointer, or the name that has to be looked up before it. `asked` is what was found for that name, if it was.
// The name is an Err, though it is a question and no error: the caller leaves its turn by it as by an error, and an enum of
// our own would have a Result's two variants.
// Heights within their limits were tested once, before the first step: no step breaks them.
pub fn step<'a>(
    code: Code<'a>,
    known: &mut Known,
    flags: u8,
    regs: Registers,
    asked: Option<Result<usize, LookupError>>,
    arrays: &mut Arrays,
) -> Result<Executed, &'a [u8]>
    requires { Inside regs }
    ensures { Tries code.entry.image.now code.entry.insts.now code.entry.count regs flags asked (lent known.old arrays.old) result (lent known.new arrays.new) }
{
    let ip = regs.ip;
    if code.count <= ip || !code.is_well_formed(ip) {
        return Ok(Executed::Ill);
    }
    let at = Tested { regs };
    let op = code.op(ip);
    if looks_up(op) {
        let Some(found) = asked else {
            let inst = code.inst(ip);
            return Err(part(code.image, inst.start, inst.len).unwrap());
        };
        let answer = execute_jump(op, found, flags, at, &mut arrays.calls);
        known.keep_jump(ip, op, Some(found));
        Ok(answer)
    } else {
        known.learn(code, ip);
        Ok(execute_instruction(op, code.operand(ip), at, arrays))
    }
}
