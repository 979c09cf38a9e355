// The starred bench cards of document 01, proved by computation; see specs/.

#![tactic(auto)]
