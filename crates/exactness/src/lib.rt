// A theorem, and no code: late is said exactly where no bounds exist, and a plan has the least ones. The statement stands
// in the specs/ of `analysis` and its proof in proofs/.
#![tactic(auto)]
