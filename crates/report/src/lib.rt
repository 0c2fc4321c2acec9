// The text of the lines that `runimage` prints, put into a lent text one behind the other. What prints has a `requires`,
// that there is room for its line: each line needs another room and takes it from the next, so no invariant of Output says
// it, and transcript proves that all lines fit. It is no fmt::Write, since a write there may fail and says nothing then; here
// nothing can fail, and each print states its text. Numbers are printed by io, for Display goes through fmt::Write.
#![tactic(auto)]

ghost use Rattle.std.specs.Prelude.{◌≡◌, ◌++◌};
ghost use Rattle.machine.specs.Ending.{ending_of};
ghost use Rattle.tables.specs.Tables.{numbers_in};
ghost use Rattle.report.specs.Outputs.{HasRoom, Prints};
ghost use Rattle.report.specs.Text.{decimal, cell_line, cell_lines, ending_text, end_line, refused_line};

use machine::{Ending, Machine};
use tables::NUMBER;

// A lent text, and how many bytes of it are printed.
#[derive(Drop)]
pub struct Output<'a> {
    text: &'a mut [u8],
    at: usize,
}

impl<'a> Output<'a> {
    // Nothing is printed yet.
    pub fn new(text: &'a mut [u8]) -> Output<'a>
        ensures { result ≡ record { text = text.entry; at = 0 } }
    {
        Output { text, at: 0 }
    }

    // The bytes that are printed.
    pub fn len(&self) -> usize
        ensures { result ≡ self.now.at }
    {
        self.at
    }

    // Bytes as they are.
    fn push(&mut self, word: &[u8])
        requires { HasRoom self.old word.now }
        ensures { Prints self.old word.now self.new }
    {
        let end = self.at + word.len();
        self.text[self.at..end].copy_from_slice(word);
        self.at = end;
    }

    // A word and a number.
    fn number(&mut self, word: &[u8], number: u64)
        requires { HasRoom self.old (word.now ++ decimal number) }
        ensures { Prints self.old (word.now ++ decimal number) self.new }
    {
        let mut digits = [0u8; 20];
        let count = io::decimal(number, &mut digits);
        self.push(word);
        self.push(&digits[..count]);
    }

    // A dumped cell's line.
    pub fn cell_line(&mut self, cell: u64)
        requires { HasRoom self.old (cell_line cell) }
        ensures { Prints self.old (cell_line cell) self.new }
    {
        let mut digits = [0u8; 16];
        let count = io::hex(cell, 16, &mut digits);
        self.push(&digits[..count]);
        self.push(b"\n");
    }

    // The lines of a dump buffer's cells.
    pub fn cell_lines(&mut self, cells: &[u8])
        requires { HasRoom self.old (cell_lines (numbers_in cells.now)) }
        ensures { Prints self.old (cell_lines (numbers_in cells.now)) self.new }
    {
        let (whole, _) = cells.as_chunks::<NUMBER>();
        for cell in whole {
            self.cell_line(u64::from_le_bytes(*cell));
        }
    }

    // How the run ended.
    fn ending(&mut self, ending: Ending)
        requires { HasRoom self.old (ending_text (ending_of ending)) }
        ensures { Prints self.old (ending_text (ending_of ending)) self.new }
    {
        match ending {
            Ending::Halted => self.push(b"halt"),
            Ending::Limit => self.push(b"limit"),
            _ => self.number(b"", u64::from(ending)),
        }
    }

    // The last line, of the machine as the run left it.
    #[tactic(auto, using(crate::proofs::Laws::same_length), unfolding(crate::specs::Text::end_line))]
    pub fn end_line(&mut self, ending: Ending, steps: u64, m: &Machine)
        requires { HasRoom self.old (end_line (ending_of ending) steps m.now.ip m.now.height m.now.call_height) }
        ensures { Prints self.old (end_line (ending_of ending) steps m.now.ip m.now.height m.now.call_height) self.new }
    {
        self.push(b"end ");
        self.ending(ending);
        self.number(b" steps ", steps);
        self.number(b" ip ", m.ip as u64);
        self.number(b" height ", m.height as u64);
        self.number(b" calls ", m.call_height as u64);
        self.push(b"\n");
    }

    // A refused load's line.
    pub fn refused_line(&mut self, number: u8)
        requires { HasRoom self.old (refused_line number) }
        ensures { Prints self.old (refused_line number) self.new }
    {
        self.number(b"refused ", u64::from(number));
        self.push(b"\n");
    }
}
