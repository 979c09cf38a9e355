// Theory only: what one line of a card does, whatever its node numbers are; see proofs/.

#![tactic(auto)]
