// A number in memory: eight bytes, the lowest first, read and written. Both have a `requires`: for a place that isn't there an
// answer would have to be made up.
#![tactic(auto)]

ghost use Rattle.std.specs.Prelude.{◌≡◌, ◌+◌, ◌≤◌, length};
ghost use Rattle.std.proofs.lemmas.List.Edits.{sets};
ghost use Rattle.word.specs.Words.{word, eight_of};

// The number of the eight bytes from `at` on, with no array of them in between: one load, once compiled.
pub fn word_at(bytes: &[u8], at: usize) -> u64
    requires { at + 8 ≤ length bytes.now }
    ensures { result ≡ word bytes.now at }
{
    u64::from(bytes[at])
        + 0x100 * u64::from(bytes[at + 1])
        + 0x10000 * u64::from(bytes[at + 2])
        + 0x1000000 * u64::from(bytes[at + 3])
        + 0x100000000 * u64::from(bytes[at + 4])
        + 0x10000000000 * u64::from(bytes[at + 5])
        + 0x1000000000000 * u64::from(bytes[at + 6])
        + 0x100000000000000 * u64::from(bytes[at + 7])
}

// A number into the eight bytes from `at` on, with no array of them in between: one store, once compiled.
#[tactic(auto, unfolding(crate::specs::Words::eight_of))]
pub fn put_word(bytes: &mut [u8], at: usize, v: u64)
    requires { at + 8 ≤ length bytes.old }
    ensures { bytes.new ≡ sets bytes.old at (eight_of v) }
{
    bytes[at] = (v % 256) as u8;
    bytes[at + 1] = (v / 0x100 % 256) as u8;
    bytes[at + 2] = (v / 0x10000 % 256) as u8;
    bytes[at + 3] = (v / 0x1000000 % 256) as u8;
    bytes[at + 4] = (v / 0x100000000 % 256) as u8;
    bytes[at + 5] = (v / 0x10000000000 % 256) as u8;
    bytes[at + 6] = (v / 0x1000000000000 % 256) as u8;
    bytes[at + 7] = (v / 0x100000000000000) as u8;
}
