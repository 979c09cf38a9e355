// The tree that a card represents: theory only; see specs/.

#![tactic(auto)]
