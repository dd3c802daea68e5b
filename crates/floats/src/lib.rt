#![tactic(auto)]
// Values of `f64` and the operations on them that IEEE 754 and document 01 fix, each on every `f64`.
// What the promises say of exact values is in proofs/Values.
pub mod constant;
pub mod extremum;
pub mod modulo;
pub mod root;
mod scaled;
pub mod value;
pub mod whole;
