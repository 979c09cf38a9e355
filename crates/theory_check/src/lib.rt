// Theory only: the check of `card_check` accepts exactly the sound tables; see specs/.

#![tactic(auto)]
