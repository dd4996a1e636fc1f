// What an attempt to seat a table finds, and a theorem that weighing accepts it: definitions and a proof, and no code.
// The call `placement::place` has both on its contract.
#![tactic(auto)]
