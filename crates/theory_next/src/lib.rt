// Theory only: the pair that `walk_next` answers is the next one of the map, and a walk lists the map; see specs/.

#![tactic(auto)]
