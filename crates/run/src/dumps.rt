// The dump buffer, whose cells a run fills from the front.
ghost use Rattle.std.specs.Prelude.{◌≡◌, ◌*◌, ◌≤◌, length};
ghost use Rattle.run.specs.Turns.{Pushes};

use crate::progress::Outcome;
use machine::Ending;
use quick::Reached;
use tables::{NUMBER, put_number};

// A lent buffer, and how many of its cells are filled.
#[derive(Drop)]
pub struct Dumps<'a> {
    buffer: &'a mut [u8],
    filled: usize,
    ghost inside: { filled * 8 ≤ length buffer.now },
}

impl<'a> Dumps<'a> {
    // Nothing is dumped yet.
    pub fn new(buffer: &'a mut [u8]) -> Dumps<'a>
        ensures same_buffer { result.buffer.ghost_name ≡ buffer.entry.ghost_name }
        ensures empty { (result.filled ≡ 0) × (result.buffer.now ≡ buffer.old) }
    {
        Dumps { buffer, filled: 0 }
    }

    // One more cell; None where there is no room for it.
    pub fn push(&mut self, cell: u64) -> Option<()>
        ensures same_buffer { self.new.buffer.ghost_name ≡ self.old.buffer.ghost_name }
        ensures pushes { Pushes self.old.filled self.old.buffer.now cell result self.new.filled self.new.buffer.now }
    {
        let end = self.filled * NUMBER;
        if self.buffer.len() - end < NUMBER {
            return None;
        }
        put_number(&mut self.buffer[end..], 0, cell);
        self.filled += 1;
        Some(())
    }

    // A run that is over, with the cells that it dumped.
    pub fn ends(&self, at: Reached, ending: Ending) -> Outcome
        ensures { result ≡ record { at = at; dumped = self.now.filled; ending = ending } }
    {
        Outcome {
            at,
            dumped: self.filled,
            ending,
        }
    }
}
