// What a trace in the council's form comes to, for one unit: definitions in specs/, their laws in proofs/.
// No code: the readers stand in the crates records and council.
#![tactic(auto)]
