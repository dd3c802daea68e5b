#![tactic(auto)]
// Where a program's numbers stand and how long its parts are: docs/PROGRAM.md. Each is the code's copy of a number in specs/Decode or specs/Image.
pub mod opcode;

// "VBR1", as a number of 4 bytes
pub const MAGIC: usize = 0x3152_4256;

pub const HEADER_SIZE: usize = 32;

pub const SLOT_SIZE: usize = 24;

pub const RECORD_SIZE: usize = 12;

pub const ENTRY_SIZE: usize = 4;

// in the header
pub const CODE_AT: usize = 4;

pub const REGISTERS_AT: usize = 8;

pub const RESULT_AT: usize = 12;

pub const INPUTS_AT: usize = 16;

pub const KIND_AT: usize = 20;

pub const PATHS_AT: usize = 24;

pub const ENTRIES_AT: usize = 28;

// in an instruction, after its opcode
pub const COUNT_AT: usize = 2;

pub const DESTINATION_AT: usize = 4;

pub const A_AT: usize = 8;

pub const B_AT: usize = 12;

pub const C_AT: usize = 16;

pub const PATH_AT: usize = 20;

// in a path's record, after the parent's number
pub const STEP_AT: usize = 4;

pub const LENGTH_AT: usize = 8;
