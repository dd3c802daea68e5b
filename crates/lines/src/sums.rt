// The totals under a listing: how many lines have each answer, and the instructions that they completed together; "the empty list
// giving five zeros" is the default.
ghost use Rattle.std.specs.Prelude.{◌≡◌};
ghost use Rattle.listing.specs.Totals.{plus};
ghost use Rattle.lines.specs.Sums.{Adds, totals_of, wrapped};

use crate::record::Outcome;
use run::Answer;
use std::ops::Add;

#[derive(Clone, Copy, Default)]
pub struct Totals {
    pub values: u64,
    pub domains: u64,
    pub asks: u64,
    pub bads: u64,
    pub steps: u64,
}

// The sums wrap, as a caller's stage may hold any numbers. Those of at most 1,000,000 lines never do.
impl Add for Totals {
    type Output = Totals;

    ghost add_gives = { λ t u r. totals_of r ≡ wrapped (plus (totals_of t) (totals_of u)) };

    fn add(self, more: Totals) -> Totals {
        Totals {
            values: self.values.wrapping_add(more.values),
            domains: self.domains.wrapping_add(more.domains),
            asks: self.asks.wrapping_add(more.asks),
            bads: self.bads.wrapping_add(more.bads),
            steps: self.steps.wrapping_add(more.steps),
        }
    }
}

impl Totals {
    // One line more, of this outcome.
    pub(crate) fn with_line(self, outcome: Outcome) -> Totals
        ensures { Adds self outcome result }
    {
        let run = Totals {
            steps: outcome.count as u64,
            ..Totals::default()
        };
        let line = match outcome.answer {
            Answer::Value(_) => Totals { values: 1, ..run },
            Answer::Question(_) => Totals { asks: 1, ..run },
            Answer::Spent => run,
            Answer::Domain(_) => Totals { domains: 1, ..run },
            Answer::Refused(_) => Totals {
                bads: 1,
                ..Totals::default()
            },
        };
        self + line
    }
}
