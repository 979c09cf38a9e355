// Theory only: what the walks of `walk` find in a tree that the card represents; see specs/.

#![tactic(auto)]
