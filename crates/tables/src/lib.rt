// Lent tables: a byte slice as a list of records, four numbers a record, eight bytes a number with the lowest first.
// Reading and writing one number or record. These functions and Code's methods have a `requires`, that the number or record is in
// the slice: a function for any index would have to answer for a record that isn't there.
#![tactic(auto)]

ghost use Rattle.std.specs.Prelude.{◌≡◌, refl, ℕ, List, [], ◌∷◌, ◌+◌, ◌*◌, ◌≤◌, length, get_or, slice_index};
ghost use Rattle.std.proofs.lemmas.List.Edits.{sets};
ghost use Rattle.inst.specs.declared.Inst.{Inst};
ghost use Rattle.machine.specs.declared.Label.{Label};
ghost use Rattle.tables.specs.Tables.{number_at, numbers_in, records_of, bytes_of, inst, label, inst_numbers, label_numbers};
ghost use Rattle.word.specs.Words.{eight_of};

mod code;
pub mod labels;

pub use code::Code;
use inst::Inst;
use machine::Label;
use word::{put_word, word_at};

// The bytes of a number, and of a record.
pub const NUMBER: usize = 8;

pub const RECORD: usize = 32;

// Number n.
pub fn number_at(bytes: &[u8], n: usize) -> u64
    requires { n * 8 + 8 ≤ length bytes.now }
    ensures { result ≡ number_at bytes.now n }
{
    word_at(bytes, n * NUMBER)
}

// A number as number n.
pub fn put_number(bytes: &mut [u8], n: usize, v: u64)
    requires { n * 8 + 8 ≤ length bytes.old }
    ensures { bytes.new ≡ sets bytes.old (n * 8) (eight_of v) }
{
    put_word(bytes, n * NUMBER, v);
}

// A record: four numbers, and back. It is no From both ways: that they give each other back is a law of this trait.
pub trait Record {
    // The record of four numbers, and the numbers of a record.
    ghost of_numbers: { ℕ → ℕ → ℕ → ℕ → Self };

    ghost numbers: { Self → List ℕ };

    fn from_numbers(a: u64, b: u64, c: u64, d: u64) -> Self
        ensures { result ≡ of_numbers a b c d };

    fn to_numbers(self) -> [u64; 4]
        ensures { result ≡ numbers self };

    ghost back: { (a b c d : ℕ) → numbers (of_numbers a b c d) ≡ a ∷ b ∷ c ∷ d ∷ [] };

    ghost forth: { (r : Self) → of_numbers (slice_index (numbers r) 0) (slice_index (numbers r) 1) (slice_index (numbers r) 2) (slice_index (numbers r) 3) ≡ r };
}

impl Record for Inst {
    ghost of_numbers = { inst };

    ghost numbers = { inst_numbers };

    ghost back = { λ a b c d. refl };

    ghost forth = { λ r. refl };

    fn from_numbers(typ: u64, val: u64, start: u64, len: u64) -> Inst {
        Inst {
            typ,
            val,
            start,
            len,
        }
    }

    fn to_numbers(self) -> [u64; 4] {
        [self.typ, self.val, self.start, self.len]
    }
}

impl Record for Label {
    ghost of_numbers = { label };

    ghost numbers = { label_numbers };

    ghost back = { λ a b c d. refl };

    ghost forth = { λ r. refl };

    fn from_numbers(start: u64, len: u64, target: u64, next: u64) -> Label {
        Label {
            start,
            len,
            target,
            next,
        }
    }

    fn to_numbers(self) -> [u64; 4] {
        [self.start, self.len, self.target, self.next]
    }
}

// Record i of a table, whatever stands for a record past it.
pub fn record_at<R: Record>(table: &[u8], i: usize) -> R
    requires { i * 32 + 32 ≤ length table.now }
    ensures { (d : R) → result ≡ get_or (records_of R.of_numbers (numbers_in table.now)) i d }
{
    let n = i * 4;
    R::from_numbers(
        number_at(table, n),
        number_at(table, n + 1),
        number_at(table, n + 2),
        number_at(table, n + 3),
    )
}

// A record as record i of a table.
pub fn put<R: Record>(table: &mut [u8], i: usize, r: R)
    requires { i * 32 + 32 ≤ length table.old }
    ensures { table.new ≡ sets table.old (i * 32) (bytes_of (R.numbers r)) }
{
    let [a, b, c, d] = r.to_numbers();
    let n = i * 4;
    put_number(table, n, a);
    put_number(table, n + 1, b);
    put_number(table, n + 2, c);
    put_number(table, n + 3, d);
}
