// No code: proofs/ has what documents 01 and 02 promise of every input, from the definitions of the crates that it names.
#![tactic(auto)]
