// The new nodes of a change, laid out in rows that the caller lends (document 01, "The changes").

#![tactic(auto)]

pub mod halves;
pub mod nodes;
pub mod pairs;
pub mod words;
