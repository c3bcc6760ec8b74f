// The format of programs: bytes and limits. `specs/Limits.antt` and `Bytes.antt` have the same for the definitions; the contracts hold the
// two together. The first bytes are numbers of the format, which tables are read and tests are written by, and no enum: a byte may be none of
// them, and the refusal of it is one arm of the reader's `match`.
pub const END: u8 = 0;

pub const JOB: u8 = 1;

pub const ASYNC: u8 = 2;

pub const FINISH: u8 = 3;

pub const FORK: u8 = 4;

pub const FUTURE: u8 = 5;

pub const FORCE: u8 = 6;

// Set on every byte of a number but its last.
pub const TOP_BIT: u8 = 128;

pub const NUMBER_BYTES: usize = 5;

pub const JOB_LIMIT: u64 = 4294967295;

pub const LEVEL_LIMIT: u32 = 32;

pub const PROGRAM_BYTES: usize = 4096;

pub const VERTEX_LIMIT: u64 = 1024;
