// Document 01, "The changes": a change that is decided, laid out as the stores that a step then makes one by one: how many new nodes
// it has, its places over the numbers that they are given, the words that go there, and what it cuts out of the tree.

#![tactic(auto)]

ghost use Rattle.std.specs.Prelude.{◌≡◌, ◌++◌, ◌≤◌, ◌<◌, length, drop};
ghost use Rattle.laws.specs.Lists.{pad};
ghost use Rattle.card.specs.Layout.{greatest_nodes, place};
ghost use Rattle.change_decide.specs.Places.{Fits};
ghost use Rattle.change_rows.specs.Nodes.{Numbered};
ghost use Rattle.change_layout.specs.LayOut.{FitsSome, needed, store_count, size_of, change_of, no_change, cut_by, places_by, words_by};

use change_decide::Decision;
use change_plan::Outcome;
use change_rows::nodes;
use change_siblings::{cut_siblings, lay_merge, lay_merge_root, lay_share};
use change_split::split::lay_split_leaf;
use change_split::tagged::{cut_tagged, lay_absorb, lay_split_parent};

// "node m begins at word 8 + 24 × (m − 1)": the place of its word i.
fn word_place(m: usize, i: usize) -> u32
    requires { (1 ≤ m) × (m ≤ greatest_nodes) × (i < 24) }
    ensures { result ≡ place m i }
{
    (card::HEADER_WORDS + card::NODE_WORDS * (m - 1) + i) as u32
}

// How many stores one, two and three new nodes take with their link.
const STORES_OF_ONE: u32 = card::NODE_WORDS as u32 + 1;

const STORES_OF_TWO: u32 = card::TWO_NODES as u32 + 1;

const STORES_OF_THREE: u32 = card::PLAN_SIZE as u32;

// What a decision comes to: whether there is a change at all, and how many new nodes and stores it has.
#[derive(Clone, Copy)]
pub struct Size {
    pub outcome: Outcome,
    pub nodes: usize,
    pub stores: u32,
}

// A change of so many new nodes and stores.
fn change_of(nodes: usize, stores: u32) -> Size
    ensures { result ≡ change_of nodes stores }
{
    Size {
        outcome: Outcome::Prepared,
        nodes,
        stores,
    }
}

// No change.
fn no_change(outcome: Outcome) -> Size
    ensures { result ≡ no_change outcome }
{
    Size {
        outcome,
        nodes: 0,
        stores: 0,
    }
}

// The new nodes of a decision, "(left, right, then above)", and its stores: "words 0 to 23 of each in order; a single link store ..
// comes last".
#[tactic(auto, unfolding(crate::specs::LayOut::size_of, crate::specs::LayOut::outcome_of, crate::specs::LayOut::needed, crate::specs::LayOut::store_count))]
pub fn size_of(decision: Decision) -> Size
    ensures { result ≡ size_of decision }
{
    match decision {
        Decision::Refused => no_change(Outcome::Refused),
        Decision::Balanced => no_change(Outcome::Balanced),
        Decision::PutPair { .. } => change_of(0, 2),
        Decision::ClearKey { .. } => change_of(0, 1),
        Decision::SplitLeaf { .. } | Decision::SplitParent(_) | Decision::Share(_) => {
            change_of(3, STORES_OF_THREE)
        }
        Decision::Merge(_) => change_of(2, STORES_OF_TWO),
        Decision::Absorb(_) | Decision::MergeRoot(_) => change_of(1, STORES_OF_ONE),
    }
}

// The nodes that the last store cuts out of the tree.
#[tactic(auto, unfolding(crate::specs::LayOut::cut_by, change_decide::specs::Places::Fits))]
pub fn cut_of(card: &[u32], decision: Decision) -> [u32; 3]
    requires { Fits card.now decision }
    ensures { result ≡ pad 3 (cut_by card.now decision) }
{
    match decision {
        Decision::SplitLeaf { node, .. } => [node as u32, 0, 0],
        Decision::Absorb(p) | Decision::SplitParent(p) => cut_tagged(p),
        Decision::Share(p) | Decision::Merge(p) | Decision::MergeRoot(p) => cut_siblings(card, p),
        Decision::Refused
        | Decision::Balanced
        | Decision::PutPair { .. }
        | Decision::ClearKey { .. } => [0; 3],
    }
}

// The places of its stores, at the front of the row. They go by the numbers of the new nodes and by the link alone.
#[tactic(auto, unfolding(crate::specs::LayOut::places_by, crate::specs::LayOut::needed, crate::specs::LayOut::store_count, change_decide::specs::Places::Fits))]
pub fn lay_places(decision: Decision, nodes: [u32; 3], places: &mut [u32])
    requires { FitsSome decision × Numbered (needed decision) nodes × (length places.old ≡ 73) }
    ensures { places.new ≡ places_by decision nodes ++ drop (store_count decision) places.old }
{
    match decision {
        Decision::Refused | Decision::Balanced => {}
        Decision::PutPair { node, slot, .. } => {
            places[0] = word_place(node, card::VALUES + slot);
            places[1] = word_place(node, card::KEYS + slot);
        }
        Decision::ClearKey { node, slot } => {
            places[0] = word_place(node, card::KEYS + slot);
        }
        Decision::SplitLeaf { link, .. } => nodes::lay_places(places, nodes, 3, link),
        Decision::SplitParent(p) | Decision::Share(p) => {
            nodes::lay_places(places, nodes, 3, p.above)
        }
        Decision::Merge(p) => nodes::lay_places(places, nodes, 2, p.above),
        Decision::Absorb(p) | Decision::MergeRoot(p) => {
            nodes::lay_places(places, nodes, 1, p.above)
        }
    }
}

// The words that go there, at the front of the row: what the new nodes hold is read off the card.
#[tactic(auto, unfolding(crate::specs::LayOut::words_by, crate::specs::LayOut::store_count, change_decide::specs::Places::Fits))]
pub fn lay_values(card: &[u32], decision: Decision, nodes: [u32; 3], values: &mut [u32])
    requires { Fits card.now decision × (length values.old ≡ 73) }
    ensures { values.new ≡ words_by card.now decision nodes ++ drop (store_count decision) values.old }
{
    match decision {
        Decision::Refused | Decision::Balanced => {}
        Decision::PutPair { key, value, .. } => {
            values[0] = value;
            values[1] = key;
        }
        Decision::ClearKey { .. } => {
            values[0] = 0;
        }
        Decision::SplitLeaf {
            node,
            link,
            key,
            value,
        } => lay_split_leaf(card::node_at(card, node), link, key, value, nodes, values),
        Decision::Absorb(p) => lay_absorb(card, p, nodes, values),
        Decision::SplitParent(p) => lay_split_parent(card, p, nodes, values),
        Decision::Share(p) => lay_share(card, p, nodes, values),
        Decision::Merge(p) => lay_merge(card, p, nodes, values),
        Decision::MergeRoot(p) => lay_merge_root(card, p, nodes, values),
    }
}
