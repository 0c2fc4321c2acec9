// The run over a label table that is a slice of records, as a host calls it: the machine is lent, and answers are numbers.
#![tactic(auto)]

ghost use Rattle.std.specs.Prelude.{◌≡◌};
ghost use Rattle.label_run.specs.Runs.{run_call};

use c_answers::Ran;
use machine::{Label, Machine};
use run::execute_in_place;

// The machine that the run leaves stands in the place of the one that was lent, and the answer is numbers, so that a host can
// call it (crate label_run_c exports it). The archive's only caller of execute_in_place.
pub fn mm_run_in_place(
    image: &[u8],
    insts: &[u8],
    labels: &[Label],
    count: u64,
    m: &mut Machine,
    limit: u64,
    dumps: &mut [u8],
) -> Ran
    ensures { run_call image.now insts.now labels.now count m.old limit dumps.old ≡ record { ending = result.ending; steps = result.steps; dumped = result.dumped; machine = m.new; dumps = dumps.new } }
{
    let outcome = execute_in_place(image, insts, labels, count as usize, m, limit, dumps);
    Ran::new(outcome.ending, outcome.steps(limit), outcome.dumped)
}
