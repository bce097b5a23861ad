// The laws of document 01's definitions, which the crate figures states in specs/Demands: proofs alone.
// They stand apart so that a wrong definition is refused by a case in figures and by no proof's shape.
#![tactic(auto)]
