// label_loader's call under C's calling convention, for the oracle to link: a slice crosses as its address and its length, a
// label as a C struct of four numbers. The call is label_loader's, under its clause.
#![tactic(auto)]

ghost use Rattle.std.specs.Prelude.{◌≡◌};
ghost use Rattle.label_loader.specs.Loading.{load_call};

use label_loader::LoadAnswer;
use machine::Label;

#[unsafe(no_mangle)]
pub extern "C" fn mm_load_labels(image: &[u8], insts: &mut [u8], labels: &mut [Label]) -> LoadAnswer
    ensures { load_call image.now insts.old labels.old ≡ record { number = result.number; ip = result.ip; count = result.count; insts = insts.new; labels = labels.new } }
{
    label_loader::mm_load_labels(image, insts, labels)
}
