// What a node of a derivative starts with.
ghost use Rattle.std.specs.Prelude.{◌≤◌};

use reader::{BINARY, CALL, COMPARE, CONDITIONAL, operator};

// A node's kind and operator, as they stand in its bytes, and how many children it has.
#[derive(Clone, Copy)]
pub struct Head {
    pub kind: u8,
    pub operator: u8,
    pub children: u8,
    pub ghost few: { children ≤ 3 },
}

impl Head {
    pub const ADD: Head = Head {
        kind: BINARY,
        operator: operator::ADD,
        children: 2,
    };

    pub const MULTIPLY: Head = Head {
        kind: BINARY,
        operator: operator::MULTIPLY,
        children: 2,
    };

    pub(crate) const DIVIDE: Head = Head {
        kind: BINARY,
        operator: operator::DIVIDE,
        children: 2,
    };

    pub(crate) const POWER: Head = Head {
        kind: BINARY,
        operator: operator::POWER,
        children: 2,
    };

    pub(crate) const LESS: Head = Head {
        kind: COMPARE,
        operator: operator::LT,
        children: 2,
    };

    pub const GREATER: Head = Head {
        kind: COMPARE,
        operator: operator::GT,
        children: 2,
    };

    pub const EQUAL: Head = Head {
        kind: COMPARE,
        operator: operator::EQ,
        children: 2,
    };

    pub(crate) const LOG: Head = Head {
        kind: CALL,
        operator: operator::LOG,
        children: 1,
    };

    pub(crate) const SIN: Head = Head {
        kind: CALL,
        operator: operator::SIN,
        children: 1,
    };

    pub(crate) const COS: Head = Head {
        kind: CALL,
        operator: operator::COS,
        children: 1,
    };

    pub(crate) const FLOOR: Head = Head {
        kind: CALL,
        operator: operator::FLOOR,
        children: 1,
    };

    pub(crate) const HILL: Head = Head {
        kind: CALL,
        operator: operator::HILL,
        children: 3,
    };

    pub const CONDITIONAL: Head = Head {
        kind: CONDITIONAL,
        operator: 0,
        children: 3,
    };
}
