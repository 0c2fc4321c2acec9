// What is known of one instruction, at an index that the arrays have.
ghost use Rattle.std.specs.Prelude.{◌≡◌, ◌<◌, get_or};
ghost use Rattle.known.specs.Known.{known_limit};

use crate::Known;

// The target is read only where it is asked for, so an entry is no pair of key and target.
#[derive(Clone, Copy, Drop)]
pub struct Entry<'a> {
    pub known: &'a Known,
    pub at: usize,
    pub ghost inside: { at < known_limit },
}

impl<'a> Entry<'a> {
    // The first byte of the instruction, or UNKNOWN.
    pub fn key(self) -> u8
        ensures { result ≡ get_or self.entry.known.now.keys self.entry.at 0 }
    {
        self.known.keys[self.at]
    }

    // The target of a known jump or CALL.
    pub fn target(self) -> usize
        ensures { result ≡ get_or self.entry.known.now.targets self.entry.at 0 }
    {
        usize::from(self.known.targets[self.at])
    }
}
