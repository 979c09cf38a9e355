// Full nodes split, and tagged nodes taken in, laid out in a row of values that the caller lends (document 01, "The changes").

#![tactic(auto)]

pub mod split;
pub mod tagged;
