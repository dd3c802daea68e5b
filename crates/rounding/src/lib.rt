#![tactic(auto)]
// Definitions and laws only: see specs/.
