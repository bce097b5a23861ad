// What a bid sheet means and what a result sheet says: definitions in specs/, their laws in proofs/.
// No code: the reader, the look-up and the writer stand in the crates above.
#![tactic(auto)]
