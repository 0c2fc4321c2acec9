// The lookup of a name along the label chain, which is the definitions': it begins at the head, record 0, and each record has the
// index of the next, which is below its own.
#![tactic(auto)]

ghost use Rattle.std.specs.Prelude.{◌≡◌, cond, Ok, Err, List, ltb};
ghost use Rattle.inst.specs.declared.Inst.{Inst};
ghost use Rattle.machine.specs.Lookup.{lookup_from};
ghost use Rattle.step_core.specs.declared.LookupError.TheVariants.{NoLabel};
ghost use Rattle.step_core.specs.Parts.{found_of};
ghost use Rattle.lookup.specs.Walks.{lent_program};

use machine::Label;
use step_core::LookupError;
use tables::labels::LabelTable;

// A label's target, if it is in the program. It is below the count where it becomes a usize: `try_from` would test it twice.
fn in_program(count: usize, t: u64) -> Result<usize, LookupError>
    ensures { result ≡ cond (ltb t count) (Ok t) (Err NoLabel) }
{
    if t < count as u64 {
        Ok(t as usize)
    } else {
        Err(LookupError::NoLabel)
    }
}

// Where the label of that name leads, by the chain's first record that has it. The next index must be below `bound`. A call, and not
// in line in the run: there each record of a chain would load again what the run keeps in registers.
#[inline(never)]
pub fn lookup<T: LabelTable>(
    image: &[u8],
    labels: T,
    count: usize,
    name: &[u8],
) -> Result<usize, LookupError>
    ensures { (insts : List Inst) → found_of result ≡ lookup_from (lent_program image.now insts (T.records labels) count) name.now (T.records labels) }
{
    let mut bound = labels.count();
    if bound == 0 {
        return Err(LookupError::IllChain);
    }
    // The head's other fields are 0.
    let Label {
        start: 0,
        len: 0,
        target: 0,
        mut next,
    } = labels.record(0)
    else {
        return Err(LookupError::IllChain);
    };
    // Not by an iterator over the records: each one says which is next.
    while next != 0 {
        if bound as u64 <= next {
            return Err(LookupError::IllChain); // past the table, or not below the index before
        }
        let label = labels.record(next as usize);
        let found = inst::name(image, label.start, label.len).ok_or(LookupError::IllChain)?;
        if inst::same_name(name, found) {
            return in_program(count, label.target);
        }
        bound = next as usize;
        next = label.next;
    }
    Err(LookupError::NoLabel)
}
