// Laws that several crates need and the prover's library lacks. There is no code here: the laws stand in proofs/.
#![tactic(auto)]
