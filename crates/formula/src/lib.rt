#![tactic(auto)]
// Definitions only: see specs/.
