// The demands, as theorems over the definitions of the calls. There is no code here: proofs/ has all of it.
#![tactic(auto)]
