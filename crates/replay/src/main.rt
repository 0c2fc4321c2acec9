// A sample of the original's answers (README.md) on standard input: each image is loaded and run step by step, and held to
// what was recorded. What is read and written is in no contract; what an image comes to is digests'.
#![tactic(auto)]

ghost use Rattle.std.specs.Prelude.{◌≡◌, ◌+◌, ◌≤◌, ◌<◌, ◌++◌, IfSome, length};
ghost use Rattle.std.specs.Int.{w16, to_le_bytes};
ghost use Rattle.digests.specs.Replays.{digest_bytes};
ghost use Rattle.replay.specs.Reading.{RecordedLies, Lies};

use digests::{DIGEST, Recorded, Replayed, replay_recorded};
use input::read_full;
use loader::{INST_BYTES, LABEL_BYTES};

// More bytes than the sample has.
const INPUT: usize = 262144;

// An image, and what was recorded of it.
#[derive(Clone, Copy, Drop)]
struct Record<'a> {
    image: &'a [u8],
    recorded: Recorded<'a>,
}

// What is counted over all records.
#[derive(Clone, Copy, Default, Drop)]
struct Totals {
    images: usize,
    steps: usize,
    differ: usize,
}

// Two bytes, the lowest first, and what is behind them.
fn half_word(bytes: &[u8]) -> Option<(u16, &[u8])>
    ensures { IfSome result (λ p. (p.0 < 65536) × (bytes.now ≡ to_le_bytes w16 p.0 ++ p.1.now)) }
{
    let (half, rest) = bytes.split_first_chunk::<2>()?;
    Some((u16::from_le_bytes(*half), rest))
}

// What was recorded at the front, and what is behind it: a refusal's number, or 0 and the digests.
fn parse_recorded(bytes: &[u8]) -> Option<(Recorded<'_>, &[u8])>
    ensures { IfSome result (λ p. RecordedLies bytes.now p.0 p.1.now) }
{
    let (number, rest) = bytes.split_first()?;
    if *number != 0 {
        return Some((Recorded::Refused(*number), rest));
    }
    let (steps, rest) = half_word(rest)?;
    let (digests, rest) = rest.split_at_checked(usize::from(steps) * DIGEST)?;
    Some((Recorded::Steps(digests), rest))
}

// The record at the front, and what is behind it.
fn parse(bytes: &[u8]) -> Option<(Record<'_>, &[u8])>
    ensures lies { IfSome result (λ p. Lies bytes.now p.0 p.1.now) }
    ensures shorter { IfSome result (λ p. length (digest_bytes p.0.recorded) + length p.1.now < length bytes.now) }
{
    let (len, rest) = half_word(bytes)?;
    let (image, rest) = rest.split_at_checked(usize::from(len))?;
    let (recorded, rest) = parse_recorded(rest)?;
    Some((Record { image, recorded }, rest))
}

fn replay_record(r: Record<'_>) -> Replayed
    ensures { result.steps ≤ length (digest_bytes r.entry.recorded) }
{
    let mut insts = [0u8; INST_BYTES];
    let mut labels = [0u8; LABEL_BYTES];
    replay_recorded(r.image, r.recorded, &mut insts, &mut labels)
}

// A text and a number, each written by itself. What can't be written is passed over, here and below: what is behind it is
// tried all the same.
fn print_number(rt: &impl Print, before: &str, number: usize) {
    let _ = print!(rt; "{before}");
    let _ = print!(rt; "{number}");
}

fn print_totals(rt: &impl Print, totals: Totals) {
    print_number(rt, "", totals.images);
    print_number(rt, " images, ", totals.steps);
    print_number(rt, " steps, ", totals.differ);
    let _ = print!(rt; " differ\n");
}

// Each record of the file, up to the first that isn't one; a line where an image differs from what was recorded. The loop
// counts no index: where a record ends is read from it.
fn replay(rt: &impl Print, bytes: &[u8]) {
    let mut rest = bytes;
    let mut totals = Totals::default();
    while !rest.is_empty() {
        let Some((record, behind)) = parse(rest) else {
            print_number(rt, "no record at byte ", bytes.len() - rest.len());
            let _ = print!(rt; "\n");
            break;
        };
        let Replayed { same, steps } = replay_record(record);
        if !same {
            print_number(rt, "image ", totals.images);
            print_number(rt, " differs after step ", steps);
            let _ = print!(rt; "\n");
            totals.differ += 1;
        }
        totals.images += 1;
        totals.steps += steps;
        rest = behind;
    }
    print_totals(rt, totals);
}

fn main(rt: HostRuntime) {
    let mut bytes = [0u8; INPUT];
    let (Ok(size) | Err(size)) = read_full(&mut rt.stdin(), &mut bytes);
    replay(&rt, &bytes[..size]);
}
