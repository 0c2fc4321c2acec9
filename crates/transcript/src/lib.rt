// What `runimage` does with an image: the load, the runs, and the text that is printed.
#![tactic(auto)]

ghost use Rattle.std.specs.Prelude.{◌≡◌};
ghost use Rattle.machine.specs.Ending.{ending_of};
ghost use Rattle.tables.specs.Tables.{program};
ghost use Rattle.report.specs.Text.{Put, refused_line};
ghost use Rattle.transcript.specs.Transcript.{is_full, in_all, report, steps_in_all, dump_room, printed};
ghost use Rattle.transcript.specs.Theorems.{BufferUnseen};

use loader::{INST_BYTES, LABEL_BYTES, fresh, from_binary};
use machine::{Ending, Machine};
use report::Output;
use run::execute_program;
use tables::NUMBER;

// The steps in all, and the bytes of a text that has room for as many lines of a cell and the last line.
pub const STEPS: u64 = 10000;

pub const TEXT: usize = 170131;

// The bytes of the dump buffer, 64 cells.
const ROOM: usize = 64 * NUMBER;

// No code: its contract states the theorem on the definitions.
pub fn transcript_theorems()
    ensures { BufferUnseen }
{}

fn is_full(ending: Ending) -> bool
    ensures { result ≡ is_full (ending_of ending) }
{
    ending == Ending::BufferFull
}

// Prints the runs from m on, one behind the other, until one ends otherwise than with a full buffer. Each is lent the buffer empty.
// Image, tables and count stand beside one another as execute_program takes them, whose comment says why.
fn print_runs(
    image: &[u8],
    insts: &[u8],
    labels: &[u8],
    count: usize,
    m: Machine,
    text: &mut [u8; TEXT],
) -> usize
    ensures { Put text.old 0 (report (in_all steps_in_all (program image.now insts.now labels.now count) dump_room steps_in_all m)) text.new result }
{
    let mut dumps = [0u8; ROOM];
    let mut machine = m;
    let mut steps: u64 = 0;
    let mut out = Output::new(text);
    loop {
        let ran = execute_program(
            image,
            insts,
            labels,
            count,
            machine,
            STEPS - steps,
            &mut dumps,
        );
        out.cell_lines(&dumps[..ran.dumped * NUMBER]);
        steps += ran.steps;
        machine = ran.machine;
        if !is_full(ran.ending) {
            out.end_line(ran.ending, steps, &machine);
            return out.len();
        }
    }
}

fn print_refused(text: &mut [u8; TEXT], number: u8) -> usize
    ensures { Put text.old 0 (refused_line number) text.new result }
{
    let mut out = Output::new(text);
    out.refused_line(number);
    out.len()
}

// What is printed of an image, from the text's front on, and how many bytes it is.
pub fn run_image(image: &[u8], text: &mut [u8; TEXT]) -> usize
    ensures { Put text.old 0 (printed image.now) text.new result }
{
    let mut insts = [0u8; INST_BYTES];
    let mut labels = [0u8; LABEL_BYTES];
    match from_binary(image, &mut insts, &mut labels) {
        Err(refusal) => print_refused(text, u8::from(refusal)),
        Ok(accepted) => print_runs(
            image,
            &insts,
            &labels,
            accepted.count,
            fresh(accepted.ip),
            text,
        ),
    }
}
