// The rules whose number a node's kind and operator don't give alone, by their numbers.

// No rule: a number without a text, as any that is none. So one look at the text tells both, and no Option is needed.
pub const NONE: usize = 0;

// Power, and by a literal n, by n - 1 = 1, by n - 1 = 0
pub const POWER: usize = 0x44;

pub const LITERAL_POWER: usize = 0x46;

pub const SQUARE: usize = 0x47;

pub const FIRST_POWER: usize = 0x48;

// where there is an argument
pub const MIN: usize = 0x7b;

pub const MAX: usize = 0x7c;

pub const HILL: usize = 0x7d;

pub const HILL_BY_STATE: usize = 0x8d;

// where the condition is without the symbol
pub const IFELSE: usize = 0x7e;

pub const CONDITIONAL: usize = 0x80;
