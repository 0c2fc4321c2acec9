// The first bytes of the instructions, by mm's names (InstType of mm's inst.rs). They are constants and no enum, since a record's
// typ is any lent number, in the definitions too: an enum would need a conversion before each comparison, and a branch for the
// numbers that are none of it.
pub const NOP: u64 = 0;

pub const PUSH: u64 = 1;

pub const POP: u64 = 2;

pub const INC: u64 = 3;

pub const DEC: u64 = 4;

pub const IADD: u64 = 5;

pub const ISUB: u64 = 6;

pub const IMUL: u64 = 7;

pub const IDIV: u64 = 8;

pub const CMP: u64 = 9;

pub const SWAP: u64 = 10;

pub const DUP: u64 = 11;

pub const JE: u64 = 12;

pub const JL: u64 = 13;

pub const JLE: u64 = 14;

pub const JG: u64 = 15;

pub const JGE: u64 = 16;

pub const JNE: u64 = 17;

pub const JZ: u64 = 18;

pub const JNZ: u64 = 19;

pub const JMP: u64 = 20;

pub const LABEL: u64 = 21;

pub const BOT: u64 = 22;

pub const FADD: u64 = 23;

pub const FSUB: u64 = 24;

pub const FMUL: u64 = 25;

pub const FDIV: u64 = 26;

pub const IDMP: u64 = 27;

pub const CALL: u64 = 28;

pub const RET: u64 = 29;

pub const EXTERN: u64 = 30;

pub const F2I: u64 = 31;

pub const F2U: u64 = 32;

pub const I2F: u64 = 33;

pub const I2U: u64 = 34;

pub const U2I: u64 = 35;

pub const U2F: u64 = 36;

pub const NATIVE: u64 = 37;

pub const READ8: u64 = 38;

pub const WRITE8: u64 = 39;

pub const READ16: u64 = 40;

pub const WRITE16: u64 = 41;

pub const READ32: u64 = 42;

pub const WRITE32: u64 = 43;

pub const READ64: u64 = 44;

pub const WRITE64: u64 = 45;

pub const FDMP: u64 = 46;

pub const HALT: u64 = 69;
