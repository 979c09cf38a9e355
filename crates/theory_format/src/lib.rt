// Theory only: what formatting leaves at every store; see specs/.

#![tactic(auto)]
