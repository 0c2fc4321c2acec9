// A program's input, read into a lent buffer.
#![tactic(auto)]

ghost use Rattle.std.specs.Prelude.{◌<◌, ◌≤◌, MatchResult, IfOk, length, take};
ghost use Rattle.std.specs.Io.KnownBytes.{Consumes, IsAtEnd};

use std::io::Read;

// Reads until the input ends or the buffer is full, and answers how many bytes it put at the buffer's front; or, if a read
// fails, which isn't tried again, how many it had put there before. Of an input whose bytes are known these are its next.
pub fn read_full<R: Read>(input: &mut R, buffer: &mut [u8]) -> Result<usize, usize>
    ensures bound { MatchResult result (λ n. n ≤ length buffer.new) (λ n. n ≤ length buffer.new) }
    ensures bytes { MatchResult result (λ n. Consumes (R.remaining input.old) (R.remaining input.new) (take n buffer.new)) (λ n. Consumes (R.remaining input.old) (R.remaining input.new) (take n buffer.new)) }
    ensures end { IfOk result (λ n. n < length buffer.new → IsAtEnd (R.remaining input.new)) }
{
    let mut at: usize = 0;
    // No index is counted: each turn goes on by as many bytes as were read.
    while at < buffer.len() {
        match input.read(&mut buffer[at..]) {
            Ok(0) => break,
            Ok(count) => at += count,
            Err(_) => return Err(at),
        }
    }
    Ok(at)
}
