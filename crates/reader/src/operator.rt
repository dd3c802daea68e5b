// The operators of nodes, by their numbers in a node's byte 1; those of one kind have numbers from 0 on.
// Numbers with names, as with the kinds of nodes: the definitions tell operators by their numbers.

// of one child
pub const POSITIVE: u8 = 0;

pub const NEGATIVE: u8 = 1;

pub const NOT: u8 = 2;

// of two
pub const ADD: u8 = 0;

pub const SUBTRACT: u8 = 1;

pub const MULTIPLY: u8 = 2;

pub const DIVIDE: u8 = 3;

pub const POWER: u8 = 4;

pub const MODULO: u8 = 5;

// comparisons
pub const LT: u8 = 0;

pub const LE: u8 = 1;

pub const GT: u8 = 2;

pub const GE: u8 = 3;

pub const EQ: u8 = 4;

pub const NE: u8 = 5;

// of truth values
pub const AND: u8 = 0;

pub const OR: u8 = 1;

// calls
pub const EXP: u8 = 0;

pub const LOG: u8 = 1;

pub const LOG10: u8 = 2;

pub const SQRT: u8 = 3;

pub const SIN: u8 = 4;

pub const COS: u8 = 5;

pub const TAN: u8 = 6;

pub const TANH: u8 = 7;

pub const ABS: u8 = 8;

pub const FLOOR: u8 = 9;

pub const CEIL: u8 = 10;

pub const MIN: u8 = 11;

pub const MAX: u8 = 12;

pub const HILL: u8 = 13;

pub const IFELSE: u8 = 14;

pub const DENSITY: u8 = 15;
