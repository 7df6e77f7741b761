// The paper's limits, each named once. The definitions have the same names in specs/Limits.antt.
#![tactic(auto)]

// The verdict's limits.
pub const FAULT_ROOM: usize = 4096;

pub const TEXT_BYTES: usize = 32768;

pub const TEXT_LINES: usize = 1024;

pub const STATEMENTS: usize = 512;

pub const DEFINITIONS: usize = 1023;

pub const RECORDS: usize = 4096;

// A statement's limits.
pub const CARDS: usize = 4;

pub const CARD_BYTES: usize = 72;

pub const NAME_BYTES: usize = 6;

pub const MOST_DIGITS: u64 = 999_999_999_999_999;

pub const MOST_TENS: usize = 22;

pub const EXPONENT_DIGITS: usize = 2;

pub const LEVELS: usize = 16;

// The program's and the evaluator's limits.
pub const RECORD_BYTES: usize = 16;

pub const FAULT_BYTES: usize = 8;

pub const SLOTS: usize = 1024;

pub const STACK: usize = 67;

pub const PROGRAM_ROOM: usize = 65536;

// Beyond the paper: an entry of the roster.
pub const ROSTER_BYTES: usize = 16;
