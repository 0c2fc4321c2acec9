// Digests of a machine after each step, compared with recorded ones. No part of mm: crate replay holds the machine to the
// original's answers by them.
#![tactic(auto)]

ghost use Rattle.std.specs.List.{fold};
ghost use Rattle.std.specs.Prelude.{◌≡◌, take};
ghost use Rattle.tables.specs.Tables.{program, records_of};
ghost use Rattle.digests.specs.Digests as digests;
ghost use Rattle.digests.specs.Digests.{once, mixed, digest_of, agreeing};
ghost use Rattle.digests.specs.Replays.{ReplayImage, ReplayRecorded};

use loader::{fresh, from_binary};
use machine::Machine;
use run::execute_program;
use tables::{NUMBER, number_at};

// What a digest is computed by: its modulus, and what a number's halves are below.
const PRIME: u64 = 4294967291;

const HALF: u64 = 1 << 32;

// The bytes of a digest.
pub const DIGEST: usize = 4;

#[tactic(auto, unfolding(crate::specs::Digests::once))]
fn mix_half(h: u32, half: u32) -> u32
    ensures { result ≡ once h half }
{
    ((u64::from(h) * 257 + u64::from(half)) % PRIME) as u32
}

// Both halves of a number, the low one first: a remainder and a quotient, as the definition has them. A cast alone is refused
// where a number may not fit.
#[tactic(auto, unfolding(crate::specs::Digests::mixed))]
fn mix(h: u32, x: u64) -> u32
    ensures { result ≡ mixed h x }
{
    let low = mix_half(h, (x % HALF) as u32);
    mix_half(low, (x / HALF) as u32)
}

// The first n cells, or all where there are fewer: a machine may have any heights. One chain over all parts of a digest was
// tried, and its proof isn't found.
fn mix_cells(from: u32, cells: &[u64], n: usize) -> u32
    ensures { result ≡ fold mixed from (take n cells.now) }
{
    cells.iter().take(n).fold(from, |h, x| mix(h, *x))
}

// The whole state after a step: how it ended, the cell that was dumped, and the machine. The cell is no Option, and is 0 where
// none was dumped: a digest is of numbers, and the recorded ones have 0 there.
pub fn digest(ending: u64, cell: u64, m: &Machine) -> u32
    ensures { result ≡ digest_of ending cell m.now }
{
    let numbers = [
        ending,
        cell,
        m.ip as u64,
        u64::from(m.flags),
        u64::from(m.halted),
        m.height as u64,
        m.call_height as u64,
    ];
    let a = mix_cells(7, &numbers, numbers.len());
    let b = mix_cells(a, &m.stack, m.height);
    let c = mix_cells(b, &m.calls, m.call_height);
    m.memory.iter().fold(c, |h, b| mix(h, u64::from(*b)))
}

// How many of the recorded digests are those of the steps from m on, before the first that isn't. Image, tables and count stand
// beside one another as execute_program takes them, whose comment says why.
pub fn agreeing_steps(
    image: &[u8],
    insts: &[u8],
    labels: &[u8],
    count: usize,
    m: Machine,
    recorded: &[u8],
) -> usize
    ensures { result ≡ agreeing (program image.now insts.now labels.now count) m (records_of digests.word recorded.now) }
{
    let mut machine = m;
    let (whole, _) = recorded.as_chunks::<DIGEST>();
    for (i, bytes) in whole.iter().enumerate() {
        let mut dumps = [0u8; NUMBER];
        let ran = execute_program(image, insts, labels, count, machine, 1, &mut dumps);
        let digest = digest(u64::from(ran.ending), number_at(&dumps, 0), &ran.machine);
        if digest != u32::from_le_bytes(*bytes) {
            return i;
        }
        machine = ran.machine;
    }
    whole.len()
}

// What an image's record comes to: whether its answers are the recorded ones, and how many steps are. It is no Option: where
// they differ the steps are told too.
#[derive(Clone, Copy)]
pub struct Replayed {
    pub same: bool,
    pub steps: usize,
}

// An image held to what was recorded of it: 0 and the digests of its first steps, or the number of its refusal.
pub fn replay_image(
    image: &[u8],
    number: u8,
    recorded: &[u8],
    insts: &mut [u8],
    labels: &mut [u8],
) -> Replayed
    ensures { ReplayImage image.now number recorded.now insts.old labels.old result insts.new labels.new }
{
    match from_binary(image, insts, labels) {
        Err(refusal) => Replayed {
            same: u8::from(refusal) == number,
            steps: 0,
        },
        Ok(accepted) => {
            let m = fresh(accepted.ip);
            let steps = agreeing_steps(image, insts, labels, accepted.count, m, recorded);
            let all = steps == recorded.len() / DIGEST;
            Replayed {
                same: all && number == 0,
                steps,
            }
        }
    }
}

// What was recorded of an image: the number of its refusal, or the digests of its first steps. It is no Result: a refusal that
// was recorded is no failure here.
#[derive(Clone, Copy, Drop)]
pub enum Recorded<'a> {
    Refused(u8),
    Steps(&'a [u8]),
}

// An image held to either. No image is refused with the number 0.
pub fn replay_recorded(
    image: &[u8],
    recorded: Recorded<'_>,
    insts: &mut [u8],
    labels: &mut [u8],
) -> Replayed
    ensures { ReplayRecorded image.now recorded.entry insts.old labels.old result insts.new labels.new }
{
    match recorded {
        Recorded::Refused(number) => {
            let Replayed { same, steps } = replay_image(image, number, &[], insts, labels);
            Replayed {
                same: same && number != 0,
                steps,
            }
        }
        Recorded::Steps(digests) => replay_image(image, 0, digests, insts, labels),
    }
}
