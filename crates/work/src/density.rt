// "The density's arguments are x, mean and shape: Domain if mean or shape <= 0, 0 if x <= 0, else the formula in
// `evaluate_prechecked`. It puts log shape, log 2π, log x, then unless x equals mean log shape, log x,
// log |x - mean|, log mean, exp, and last exp."
ghost use Rattle.std.specs.Prelude.{◌≡◌, drop};
ghost use Rattle.std.specs.Float.{binary64};
ghost use Rattle.std.specs.Float.Ieee.{sub};
ghost use Rattle.formula.specs.Operator.{Exp};
ghost use Rattle.meaning.specs.Work.{advance, supplied, asked, density_work, density_cost};
ghost use Rattle.work.specs.View.{shown, kept_values};

use crate::{EXP_NUMBER, Kept, LOG_NUMBER, Outcome, asking};
use floats::constant::{ln_two, two_pi};

#[tactic(auto, using(crate::proofs::Answers::given, crate::proofs::Answers::outside), unfolding(meaning::specs::Work::density_work))]
pub fn density(x: f64, mean: f64, shape: f64, kept: Kept) -> Outcome
    ensures { result ≡ shown (advance (density_work binary64 x mean shape) (kept_values kept)) }
{
    if mean <= 0.0 || shape <= 0.0 {
        return Outcome::Undefined;
    }
    if x <= 0.0 {
        return Outcome::Value(0.0);
    }
    let Some(log_shape) = kept.get(0) else {
        return asking(LOG_NUMBER, shape);
    };
    let Some(log_two_pi) = kept.get(1) else {
        return asking(LOG_NUMBER, two_pi());
    };
    let Some(log_x) = kept.get(2) else {
        return asking(LOG_NUMBER, x);
    };
    let normalizer = 0.5 * (log_shape - log_two_pi - 3.0 * log_x);
    if x == mean {
        let Some(density) = kept.get(3) else {
            return asking(EXP_NUMBER, normalizer - 0.0);
        };
        return Outcome::Value(density);
    }
    with_cost(x, mean, shape, normalizer, kept)
}

// From the cost's first question on.
#[tactic(auto, using(crate::proofs::Answers::given), unfolding(meaning::specs::Work::density_cost))]
fn with_cost(x: f64, mean: f64, shape: f64, normalizer: f64, kept: Kept) -> Outcome
    ensures { result ≡ shown (advance (density_cost binary64 x mean shape (λ cost. supplied (asked Exp (sub binary64 normalizer cost)))) (drop 3 (kept_values kept))) }
{
    let Some(log_shape) = kept.get(3) else {
        return asking(LOG_NUMBER, shape);
    };
    let Some(log_x) = kept.get(4) else {
        return asking(LOG_NUMBER, x);
    };
    let Some(log_distance) = kept.get(5) else {
        return asking(LOG_NUMBER, floats::value::abs(x - mean));
    };
    let Some(log_mean) = kept.get(6) else {
        return asking(LOG_NUMBER, mean);
    };
    let Some(cost) = kept.get(7) else {
        let logs = log_shape - ln_two() - log_x;
        return asking(EXP_NUMBER, logs + 2.0 * (log_distance - log_mean));
    };
    let Some(density) = kept.get(8) else {
        return asking(EXP_NUMBER, normalizer - cost);
    };
    Outcome::Value(density)
}
