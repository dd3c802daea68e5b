// "Hill(x, n, k) is Domain if n or k <= 0, and 0 if x <= 0. Else z = n × (log x - log k); for z >= 0 it is
// 1 / (1 + exp(-z)), otherwise q / (1 + q) with q = exp z. It puts log x, log k, then that exp."
ghost use Rattle.std.specs.Prelude.{◌≡◌};
ghost use Rattle.std.specs.Float.{binary64};
ghost use Rattle.meaning.specs.Work.{advance, hill_work};
ghost use Rattle.work.specs.View.{shown, kept_values};

use crate::{EXP_NUMBER, Kept, LOG_NUMBER, Outcome, asking};

#[tactic(auto, using(crate::proofs::Answers::given, crate::proofs::Answers::outside), unfolding(meaning::specs::Work::hill_work))]
pub fn hill(x: f64, n: f64, k: f64, kept: Kept) -> Outcome
    ensures { result ≡ shown (advance (hill_work binary64 x n k) (kept_values kept)) }
{
    if n <= 0.0 || k <= 0.0 {
        return Outcome::Undefined;
    }
    if x <= 0.0 {
        return Outcome::Value(0.0);
    }
    let Some(log_x) = kept.get(0) else {
        return asking(LOG_NUMBER, x);
    };
    let Some(log_k) = kept.get(1) else {
        return asking(LOG_NUMBER, k);
    };
    let z = n * (log_x - log_k);
    if 0.0 <= z {
        let Some(e) = kept.get(2) else {
            return asking(EXP_NUMBER, -z);
        };
        return Outcome::Value(1.0 / (1.0 + e));
    }
    let Some(q) = kept.get(2) else {
        return asking(EXP_NUMBER, z);
    };
    Outcome::Value(q / (1.0 + q))
}
