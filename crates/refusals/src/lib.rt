#![tactic(auto)]

ghost use Rattle.std.specs.Prelude.{◌≡◌};
ghost use Rattle.refusals.specs.Refusals.{number_of, node_of};

// Why bad input is refused; what is wrong with formula bytes names their node, counted from 0.
#[derive(Clone, Copy, Debug, PartialEq, Eq)]
pub enum Refusal {
    SliceTooShort,
    WrongField(usize),
    MalformedLine,
    ExpressionLimit,
    InvalidInput,
    UnknownSymbol,
    WrongType,
    Unsupported,
    OutsideDomain,
    NoProgram,
    StaleState,
    EndedEarly(usize),
    LeftOver(usize),
}

impl Refusal {
    // "Bad input is refused by the number that document 01 fixes".
    pub fn number(self) -> u8
        ensures { result ≡ number_of self }
    {
        match self {
            Refusal::SliceTooShort => 1,
            Refusal::WrongField(_) => 2,
            Refusal::MalformedLine => 3,
            Refusal::ExpressionLimit => 4,
            Refusal::InvalidInput => 5,
            Refusal::UnknownSymbol => 6,
            Refusal::WrongType => 7,
            Refusal::Unsupported => 8,
            Refusal::OutsideDomain => 9,
            Refusal::NoProgram => 10,
            Refusal::StaleState => 11,
            Refusal::EndedEarly(_) => 12,
            Refusal::LeftOver(_) => 13,
        }
    }

    // "At which node from 0".
    pub fn node(self) -> Option<usize>
        ensures { result ≡ node_of self }
    {
        match self {
            Refusal::WrongField(k) | Refusal::EndedEarly(k) | Refusal::LeftOver(k) => Some(k),
            _ => None,
        }
    }
}
