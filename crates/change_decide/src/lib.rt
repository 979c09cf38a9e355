// Document 01, "The changes": which change a step is due that has no store left to make, and where. A decision is a small value
// and plans nothing: what the new nodes hold is on the card, and `change_layout` lays it out.

#![tactic(auto)]

ghost use Rattle.std.specs.Prelude.{◌≡◌, ◌&&◌, ◌+◌, ◌*◌, ◌≤◌, length, eqb};
ghost use Rattle.card.specs.Layout.{greatest_nodes, root_place, kind_of, children};
ghost use Rattle.card.specs.Lines.{IsLine, seen};
ghost use Rattle.change_decide.specs.Decide.{is_node, left_sibling, decide_tagged, decide_together, decide_siblings, decide_underfull, decide_at, decided_repair};
ghost use Rattle.change_decide.specs.Places.{PositionWithin};

use walk::{Position, Search};

// What a step that has no store left to make decides.
#[derive(Clone, Copy)]
pub enum Decision {
    // refusal 9
    Refused,
    // nothing to change, or nothing to repair on the way
    Balanced,
    // "With an empty slot: value first, then key"
    PutPair {
        node: usize,
        slot: usize,
        key: u32,
        value: u32,
    },
    // "Delete: key word to 0"
    ClearKey {
        node: usize,
        slot: usize,
    },
    // "Leaf full: the 12 pairs go 6 and 6 into two leaves", linked from the place
    SplitLeaf {
        node: usize,
        link: usize,
        key: u32,
        value: u32,
    },
    // "a new copy of the parent takes its key and children in"
    Absorb(Position),
    // "Parent with 11: the 12 children go 6 and 6 into two internal nodes"
    SplitParent(Position),
    // "Together 4 or more: shared out"
    Share(Position),
    // "Together 3 or fewer: merged, the parent copied with one child less"
    Merge(Position),
    // "if that parent is the root with 2 children, the merged node becomes the root"
    MergeRoot(Position),
}

// "Tagged node: parent with at most 10 children .. Parent with 11 ..". One that has not 2 children is refused.
#[tactic(auto, unfolding(crate::specs::Decide::decide_tagged))]
fn decide_tagged(p: Position, parent: &[u32], tagged: &[u32]) -> Decision
    requires { (length parent.now ≡ 24) × (length tagged.now ≡ 24) }
    ensures { result ≡ decide_tagged p parent.now tagged.now }
{
    if card::child_count(tagged) != 2 {
        return Decision::Refused;
    }
    if card::child_count(parent) <= 10 {
        Decision::Absorb(p)
    } else {
        Decision::SplitParent(p)
    }
}

// "that parent is the root with 2 children"
fn is_root_of_two(p: Position, parent: &[u32]) -> bool
    requires { length parent.now ≡ 24 }
    ensures { result ≡ (eqb p.above root_place && eqb (length (children parent.now)) 2) }
{
    p.above == card::ROOT_PLACE && card::child_count(parent) == 2
}

// "Together 4 or more: shared out .. Together 3 or fewer: merged", by the number of pairs or children that there are together.
#[tactic(auto, unfolding(crate::specs::Decide::decide_together))]
fn decide_together(p: Position, parent: &[u32], count: usize) -> Decision
    requires { length parent.now ≡ 24 }
    ensures { result ≡ decide_together p parent.now count }
{
    if card::MOST_TOGETHER < count {
        return Decision::Refused;
    }
    if 4 <= count {
        return Decision::Share(p);
    }
    if is_root_of_two(p, parent) {
        Decision::MergeRoot(p)
    } else {
        Decision::Merge(p)
    }
}

fn both_are(x: &[u32], y: &[u32], kind: u32) -> bool
    requires { (length x.now ≡ 24) × (length y.now ≡ 24) }
    ensures { result ≡ (eqb (kind_of x.now) kind && eqb (kind_of y.now) kind) }
{
    x[0] == kind && y[0] == kind
}

// Siblings are of one kind, and internal ones have children; others are refused.
#[tactic(auto, unfolding(crate::specs::Decide::decide_siblings))]
fn decide_siblings(p: Position, parent: &[u32], x: &[u32], y: &[u32]) -> Decision
    requires { (length parent.now ≡ 24) × (length x.now ≡ 24) × (length y.now ≡ 24) }
    ensures { result ≡ decide_siblings p parent.now x.now y.now }
{
    if both_are(x, y, card::LEAF) {
        return decide_together(p, parent, card::pair_count(x) + card::pair_count(y));
    }
    if !both_are(x, y, card::INTERNAL) {
        return Decision::Refused;
    }
    let left = card::child_count(x);
    let right = card::child_count(y);
    if left == 0 || right == 0 {
        return Decision::Refused;
    }
    decide_together(p, parent, left + right)
}

// A node number that is on a card of n nodes.
#[tactic(auto, unfolding(crate::specs::Decide::is_node))]
fn is_node(n: usize, m: usize) -> bool
    ensures { result ≡ is_node n m }
{
    0 < m && m <= n
}

// "sibling is the right one for child 0, else the left one": which child the left one of the two is.
pub fn left_sibling(p: Position) -> usize
    ensures { result ≡ left_sibling p }
{
    p.index.saturating_sub(1)
}

// "Underfull non-root node"; where there is no sibling, or a number is not a node's, the step is refused.
#[tactic(auto, unfolding(crate::specs::Decide::decide_underfull))]
fn decide_underfull(card: &[u32], n: usize, p: Position, parent: &[u32]) -> Decision
    requires { (length card.now ≡ 8 + 24 * n) × (n ≤ greatest_nodes) × (length parent.now ≡ 24) × (p.index ≤ 11) }
    ensures { result ≡ decide_underfull card.now n p parent.now }
{
    let j = left_sibling(p);
    if card::child_count(parent) <= j + 1 {
        return Decision::Refused;
    }
    let x = parent[card::VALUES + j] as usize;
    let y = parent[card::SECOND_CHILD + j] as usize;
    if !is_node(n, x) || !is_node(n, y) {
        return Decision::Refused;
    }
    decide_siblings(p, parent, card::node_at(card, x), card::node_at(card, y))
}

// The repair of the violation at a position; a parent that is tagged is refused.
#[tactic(auto, unfolding(crate::specs::Decide::decide_at))]
fn decide_at(card: &[u32], n: usize, p: Position) -> Decision
    requires { PositionWithin card.now n p }
    ensures { result ≡ decide_at card.now n p }
{
    let parent = card::node_at(card, p.parent);
    if parent[0] != card::INTERNAL {
        return Decision::Refused;
    }
    let node = card::node_at(card, p.node);
    if node[0] == card::TAGGED {
        decide_tagged(p, parent, node)
    } else {
        decide_underfull(card, n, p, parent)
    }
}

// "Repairs go on until balanced": the change that mends the first violation on a key's way in a line's table.
#[tactic(auto, using(crate::proofs::LineDecisions::repair_seen), unfolding(crate::specs::Decide::on_search))]
pub fn next_repair(card: &[u32], n: usize, line: u32, key: u32) -> Decision
    requires { (length card.now ≡ 8 + 24 * n) × (n ≤ greatest_nodes) × IsLine line }
    ensures { result ≡ decided_repair (seen line card.now) n key }
{
    match walk::find_violation(card, n, key, card::root_of(card, line)) {
        Search::Refused => Decision::Refused,
        Search::Balanced => Decision::Balanced,
        Search::Violation(p) => decide_at(card, n, p),
    }
}
