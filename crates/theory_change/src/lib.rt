// Theory only: what each change does to the tree, at every store of its plan; see specs/.

#![tactic(auto)]
