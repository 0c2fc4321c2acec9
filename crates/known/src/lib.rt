// What a run has found out about its instructions. Neither the tables nor the image change during a run, so what is known
// stays true. A lookup that finds no target isn't kept: it ends the run.
// Crate step keeps, quick reads.
#![tactic(auto)]

ghost use Rattle.std.specs.Prelude.{◌≡◌, ◌<◌, ◌≤◌, IfSome, MatchOption};
ghost use Rattle.known.specs.Known.{known_limit, looks_up, Sized};
ghost use Rattle.known.specs.Keeps.{Keeps, KeepsJump, KeepsPlain, Learns};

mod entry;

pub use entry::Entry;
use inst::ops;
use step_core::LookupError;
use tables::Code;

// So many instructions can be known, from the first on.
pub const KNOWN_LIMIT: usize = 4080;

// The key of an instruction that isn't known.
pub const UNKNOWN: u8 = 255;

// So many instructions are tested at a time.
const AHEAD: usize = 32;

// Whether an instruction looks its name up: the jumps and CALL.
#[tactic(auto, unfolding(crate::specs::Known::looks_up))]
pub fn looks_up(op: u64) -> bool
    ensures { result ≡ looks_up op }
{
    matches!(op, ops::CALL | ops::JE..=ops::JMP)
}

// For an index i below KNOWN_LIMIT, `keys[i]` is UNKNOWN, or the first byte of instruction i. Then i is below the count and
// record i is well formed; and if the instruction looks its name up, the lookup finds the target targets[i]. A key is no
// Option: that would take two bytes. Keys and targets are arrays of their own: a target is read only where a jump is taken.
// A run makes it by a literal where it stands: a function that returned it would copy 12 KB.
#[derive(Drop)]
pub struct Known {
    pub keys: [u8; KNOWN_LIMIT],
    pub targets: [u16; KNOWN_LIMIT],
}

impl Known {
    // What is known at an index, if the arrays have it.
    pub fn entry(&self, at: usize) -> Option<Entry<'_>>
        ensures { MatchOption result (known_limit ≤ at) (λ e. (e.known.now ≡ self.now) × (e.at ≡ at)) }
    {
        if KNOWN_LIMIT <= at {
            return None;
        }
        Some(Entry { known: self, at })
    }

    // Keeps a jump or CALL with its target. One past the arrays, or with a target past 16 bits, is looked up at each use.
    // Each thing that can be missing has its own line: `ok().and_then(|t| u16::try_from(t).ok())` for two of them is no plainer.
    pub fn keep_jump(&mut self, at: usize, op: u64, found: Option<Result<usize, LookupError>>)
        ensures sized { Sized self.old }
        ensures kept { op < 256 → KeepsJump self.old at op found self.new }
        ensures no_byte { 256 ≤ op → self.new ≡ self.old }
    {
        let Ok(key) = u8::try_from(op) else {
            return;
        };
        let Some(found) = found else {
            return;
        };
        let Ok(t) = found else {
            return;
        };
        let Ok(target) = u16::try_from(t) else {
            return;
        };
        if at < KNOWN_LIMIT {
            self.targets[at] = target;
            self.keys[at] = key;
        }
    }

    // Keeps any other instruction.
    fn keep(&mut self, at: usize, key: u8)
        ensures { Keeps self.old at key self.new }
    {
        if at < KNOWN_LIMIT {
            self.keys[at] = key;
        }
    }

    // The index behind the last instruction to test from `from` on: AHEAD further, or the count if that is less. None where
    // `from` is kept already or past the arrays.
    fn end_of(&self, from: usize, count: usize) -> Option<usize>
        ensures { IfSome result (λ end. end ≤ count) }
    {
        let first = self.entry(from)?;
        if first.key() != UNKNOWN {
            return None;
        }
        Some(count.min(from + AHEAD))
    }

    // Keeps the instruction at an index if it is known once its record is tested: it needs no lookup.
    #[tactic(auto, using(crate::proofs::Keeping::formed_byte), unfolding(crate::specs::Keeps::is_plain_at))]
    fn keep_plain(&mut self, code: Code<'_>, at: usize)
        requires { at < code.count }
        ensures { KeepsPlain code.entry.image.now code.entry.insts.now self.old at self.new }
    {
        let op = code.op(at);
        if looks_up(op) || !code.is_well_formed(at) {
            return;
        }
        if let Ok(key) = u8::try_from(op) {
            self.keep(at, key);
        }
    }

    // Keeps the instructions from an index on that need no lookup, unless the first is kept. So straight code comes here once
    // in many instructions, and the quick loop takes the others from their first use on.
    pub fn learn(&mut self, code: Code<'_>, from: usize)
        ensures { Learns code.entry.image.now code.entry.insts.now code.entry.count self.old self.new }
    {
        let Some(end) = self.end_of(from, code.count) else {
            return;
        };
        // By index: `Code` reads record i of a program, whose type says that it is there.
        for i in from..end {
            self.keep_plain(code, i);
        }
    }
}
