// A theorem, and no code: the task lines that are printed of a table read back as its tasks. The statement stands in
// specs/ and its proof in proofs/; the call `inventories::inventory` has it on its contract.
#![tactic(auto)]
