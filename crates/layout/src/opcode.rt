// Opcodes, as docs/PROGRAM.md numbers them. A function's number is its opcode less EXP.
// Names and no enum: a program's byte may hold any number, so an enum would first need a table as long as this one to read it.
pub const CONSTANT: usize = 0;

pub const LOAD: usize = 1;

pub const COPY: usize = 2;

pub const BRANCH: usize = 3;

pub const JUMP: usize = 4;

pub const POSITIVE: usize = 5;

pub const NEGATIVE: usize = 6;

pub const NOT: usize = 7;

pub const ADD: usize = 8;

pub const SUBTRACT: usize = 9;

pub const MULTIPLY: usize = 10;

pub const DIVIDE: usize = 11;

pub const POWER: usize = 12;

pub const MODULO: usize = 13;

pub const LT: usize = 14;

pub const LE: usize = 15;

pub const GT: usize = 16;

pub const GE: usize = 17;

pub const EQ: usize = 18;

pub const NE: usize = 19;

pub const EXP: usize = 20;

pub const LOG: usize = 21;

pub const LOG10: usize = 22;

pub const SQRT: usize = 23;

pub const SIN: usize = 24;

pub const COS: usize = 25;

pub const TAN: usize = 26;

pub const TANH: usize = 27;

pub const ABS: usize = 28;

pub const FLOOR: usize = 29;

pub const CEIL: usize = 30;

pub const MIN: usize = 31;

pub const MAX: usize = 32;

pub const HILL: usize = 33;

pub const DENSITY: usize = 34;
