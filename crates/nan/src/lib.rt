// Cells (NaNBox of mm's nan.rs): the type and the value that 64 bits hold, and cells made of numbers. Masks and
// shifts of mm are written as remainders and quotients by powers of two.
#![tactic(auto)]

ghost use Rattle.std.specs.Prelude.{◌≡◌, ◌≤◌};
ghost use Rattle.nan.specs.Cells as cells;

// bit 63
const SIGN: u64 = 0x8000000000000000;

// 2^48: a magnitude is below it
pub const VALUES: u64 = 0x1000000000000;

// Unknown is a type as the others are, and no lack of one: the definitions are over the five, and trap 31 is a rule about the fifth.
#[derive(Clone, Copy, PartialEq, Eq)]
pub enum CellType {
    F64,
    I64,
    U64,
    Ptr,
    Unknown,
}

// mm has no type for 8, which the usual quiet NaN has: request a of document 02.
#[tactic(auto, unfolding(crate::specs::Cells::type_of, crate::specs::Cells::tagged))]
pub fn get_type(cell: u64) -> CellType
    ensures { result ≡ cells.type_of cell }
{
    if float64::is_nan(cell) {
        match cell / VALUES % 16 {
            1 => CellType::F64,
            2 => CellType::I64,
            3 => CellType::U64,
            4 => CellType::Ptr,
            8 => CellType::F64,
            _ => CellType::Unknown,
        }
    } else {
        CellType::F64
    }
}

// get_value, as_u64 and signed are a line or two over the library's casts, under the names of the definitions that they promise.
pub fn get_value(cell: u64) -> i64
    ensures { result ≡ cells.value cell }
{
    let magnitude = (cell % VALUES) as i64;
    if cell >= SIGN { -magnitude } else { magnitude }
}

#[tactic(auto, using(crate::proofs::Laws::word_of))]
pub fn as_u64(cell: u64) -> u64
    ensures { result ≡ cells.as_u64 cell }
{
    get_value(cell).cast_unsigned()
}

// The given top 16 bits over v's magnitude modulo 2^48, with bit 63 set where v is below 0.
fn set_value(top: u64, v: i64) -> u64
    requires { top ≤ 0x7FFF }
    ensures { result ≡ cells.boxed top v }
{
    let sign = if v < 0 { SIGN } else { 0 };
    sign + top * VALUES + v.unsigned_abs() % VALUES
}

// A word taken as signed.
#[tactic(auto, using(crate::proofs::Laws::signed_of))]
pub fn signed(n: u64) -> i64
    ensures { result ≡ cells.signed n }
{
    n.cast_signed()
}

// The two makers of cells are a line each, over what they share.
pub fn from_i64(v: i64) -> u64
    ensures { result ≡ cells.from_i64 v }
{
    set_value(0x7FF2, v)
}

pub fn from_u64(n: u64) -> u64
    ensures { result ≡ cells.from_u64 n }
{
    set_value(0x7FF3, signed(n))
}
