// A run (execute_program of mm's mm.rs): the general step where something is new or ends the run, and the quick loop for all the
// rest. Only execute_program, execute_in_place, execute_parts and lookup hold the label table: where `steps` needs a lookup it
// stops and asks for it.
#![tactic(auto)]

ghost use Rattle.std.specs.Prelude.{◌≡◌};
ghost use Rattle.machine.specs.Ending.{ending_of};
ghost use Rattle.step_core.specs.Parts.{of_parts};
ghost use Rattle.step.specs.Steps.{lent};
ghost use Rattle.run.specs.Turns.{is_halted};
ghost use Rattle.run.specs.Runs.{Begins, Ready, Advances, ExecuteParts, ExecuteInPlace, ExecuteRecords};

mod dumps;
mod follows;
pub mod progress;

pub use crate::dumps::Dumps;
use crate::follows::follow;
use crate::progress::{Asking, Outcome};
use known::{KNOWN_LIMIT, Known, UNKNOWN};
use lookup::lookup;
use machine::{CALL_LIMIT, Ending, MEMORY_SIZE, Machine, STACK_LIMIT};
use quick::{Reached, run_known};
use std::ops::ControlFlow;
use step::step;
use step_core::{Arrays, LookupError, Registers};
use tables::Code;
use tables::labels::LabelTable;

// What a run returns.
#[derive(Clone, Copy)]
pub struct Ran {
    pub machine: Machine,
    pub ending: Ending,
    pub steps: u64,
    pub dumped: usize,
}

// The program, of which steps can be made; or how the run ends that makes none, since it halted, its limit is 0 or it is ill
// (34) by what no step changes: all but the pointer and the record there. Public, with `steps`, for a run over labels of one's own:
// whoever asks for steps looks the names up.
pub fn begin<'a>(
    image: &'a [u8],
    insts: &'a [u8],
    count: usize,
    from: Reached,
    halted: bool,
) -> Result<Code<'a>, Ending>
    ensures { Begins image.now insts.now count from halted result }
{
    if halted {
        return Err(Ending::Halted);
    }
    if from.left == 0 {
        return Err(Ending::Limit);
    }
    if STACK_LIMIT < from.regs.height || CALL_LIMIT < from.regs.call_height {
        return Err(Ending::IllState);
    }
    Code::new(image, insts, count).ok_or(Ending::IllState)
}

// The steps of a run from `from` on: one as the definition has it, then the known ones, and so on until the run is over or a
// name must be looked up. `asked` is what was found for the name that it asked for, if it did. The loop keeps:
// - the limit less the steps left lead to the machine of `at` and the arrays, with the filled cells dumped;
// - heights are within their limits;
// - what is known is right.
// It requires that of what it is handed: execute_parts alone calls it here, and proves it.
pub fn steps<'a>(
    code: Code<'a>,
    known: &mut Known,
    from: Reached,
    asked: Option<Result<usize, LookupError>>,
    arrays: &mut Arrays,
    dumps: &mut Dumps<'_>,
) -> ControlFlow<Outcome, Asking<'a>>
    requires { Ready code.count from known.old }
    ensures same_buffer { dumps.new.buffer.ghost_name ≡ dumps.old.buffer.ghost_name }
    ensures advances { Advances code.entry.image.now code.entry.insts.now code.entry.count from asked dumps.old.filled dumps.old.buffer.now (lent known.old arrays.old) result dumps.new.filled dumps.new.buffer.now (lent known.new arrays.new) }
{
    let mut at = from;
    let mut found = asked;
    // No `for`: a turn takes as many steps as are known.
    while at.left > 0 {
        let Reached { regs, flags, .. } = at;
        let answer = match step(code, known, flags, regs, found, arrays) {
            Ok(answer) => answer,
            Err(name) => return ControlFlow::Continue(Asking { at, name }),
        };
        let next = follow(answer, at, dumps)?;
        at = run_known(code, known, next, arrays);
        found = None;
    }
    ControlFlow::Break(dumps.ends(at, Ending::Limit))
}

// The run over a machine's parts, with the arrays lent, which no step copies: as long as it goes on, a lookup and the steps
// up to the next one. It begins at `from`, with as many steps left as its limit allows. `steps` and the functions that it
// calls have one caller each, or the compiler no longer makes one loop of them (15 to 20 ns a step).
// Image, records, labels and count stand one by one, here and in execute_program: they cross from a host as lent slices, the
// count may be past its table, which is an answer of the run (34) and no Code, and the label table is of either type. A struct
// of the four would be generic, made at each call and taken apart at once, in `begin`.
pub fn execute_parts<T: LabelTable>(
    image: &[u8],
    insts: &[u8],
    labels: T,
    count: usize,
    from: Reached,
    halted: bool,
    arrays: &mut Arrays,
    dumps: &mut [u8],
) -> Outcome
    ensures { ExecuteParts image.now insts.now (T.records labels) count (of_parts from.regs from.flags arrays.old.stack arrays.old.calls arrays.old.memory halted) from.left dumps.old result arrays.new.stack arrays.new.calls arrays.new.memory dumps.new }
{
    let mut cells = Dumps::new(dumps);
    let mut at = from;
    let code = match begin(image, insts, count, from, halted) {
        Ok(code) => code,
        Err(ending) => return cells.ends(at, ending),
    };
    // Nothing is known. Written out: a function that returns it costs a copy, and 12 KB more of stack.
    let mut known = Known {
        keys: [UNKNOWN; KNOWN_LIMIT],
        targets: [0; KNOWN_LIMIT],
    };
    let mut found = None;
    loop {
        match steps(code, &mut known, at, found, arrays, &mut cells) {
            ControlFlow::Continue(asking) => {
                at = asking.at;
                found = Some(lookup(code.image, labels, code.count, asking.name));
            }
            ControlFlow::Break(outcome) => return outcome,
        }
    }
}

// A machine's arrays.
fn read_arrays(m: &Machine, arrays: &mut Arrays)
    ensures { arrays.new ≡ record { stack = m.now.stack; calls = m.now.calls; memory = m.now.memory } }
{
    arrays.stack.copy_from_slice(&m.stack);
    arrays.calls.copy_from_slice(&m.calls);
    arrays.memory.copy_from_slice(&m.memory);
}

// The machine that a run leaves.
fn write_outcome(outcome: Outcome, arrays: &Arrays, m: &mut Machine)
    ensures { m.new ≡ of_parts outcome.at.regs outcome.at.flags arrays.now.stack arrays.now.calls arrays.now.memory (is_halted (ending_of outcome.ending)) }
{
    let Reached { regs, flags, .. } = outcome.at;
    m.stack.copy_from_slice(&arrays.stack);
    m.height = regs.height;
    m.calls.copy_from_slice(&arrays.calls);
    m.call_height = regs.call_height;
    m.memory.copy_from_slice(&arrays.memory);
    m.flags = flags;
    m.ip = regs.ip;
    m.halted = outcome.is_halted();
}

// The run over a machine that is lent. Its arrays are copied once in and once out: where they lie in it is C's, and a run lends
// them as one.
pub fn execute_in_place<T: LabelTable>(
    image: &[u8],
    insts: &[u8],
    labels: T,
    count: usize,
    m: &mut Machine,
    limit: u64,
    dumps: &mut [u8],
) -> Outcome
    ensures { ExecuteInPlace image.now insts.now (T.records labels) count m.old limit dumps.old result m.new dumps.new }
{
    let arrays = &mut Arrays {
        stack: [0; STACK_LIMIT],
        calls: [0; CALL_LIMIT],
        memory: [0; MEMORY_SIZE],
    };
    read_arrays(m, arrays);
    let from = Reached {
        regs: Registers::from(&*m),
        left: limit,
        flags: m.flags,
    };
    let halted = m.halted;
    let outcome = execute_parts(image, insts, labels, count, from, halted, arrays, dumps);
    write_outcome(outcome, arrays, m);
    outcome
}

// The same over the machine by value.
pub fn execute_program<T: LabelTable>(
    image: &[u8],
    insts: &[u8],
    labels: T,
    count: usize,
    m: Machine,
    limit: u64,
    dumps: &mut [u8],
) -> Ran
    ensures { ExecuteRecords image.now insts.now (T.records labels) count m limit dumps.old result dumps.new }
{
    let mut machine = m;
    let outcome = execute_in_place(image, insts, labels, count, &mut machine, limit, dumps);
    Ran {
        machine,
        ending: outcome.ending,
        steps: outcome.steps(limit),
        dumped: outcome.dumped,
    }
}
