// label_run's call under C's calling convention, for the oracle to link: a slice crosses as its address and its length, labels
// and the machine as C structs. The call is label_run's, under its clause.
#![tactic(auto)]

ghost use Rattle.std.specs.Prelude.{◌≡◌};
ghost use Rattle.label_run.specs.Runs.{run_call};

use machine::{Label, Machine};

#[unsafe(no_mangle)]
pub extern "C" fn mm_run_in_place(
    image: &[u8],
    insts: &[u8],
    labels: &[Label],
    count: u64,
    m: &mut Machine,
    limit: u64,
    dumps: &mut [u8],
) -> c_answers::Ran
    ensures { run_call image.now insts.now labels.now count m.old limit dumps.old ≡ record { ending = result.ending; steps = result.steps; dumped = result.dumped; machine = m.new; dumps = dumps.new } }
{
    label_run::mm_run_in_place(image, insts, labels, count, m, limit, dumps)
}
