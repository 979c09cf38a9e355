// The way down (document 01, "The card"): routing, the look-up in a leaf, and the walk to a leaf or to the first fault.

#![tactic(auto)]

ghost use Rattle.std.specs.Prelude.{◌≡◌, true, false, ◌&&◌, ◌+◌, ◌*◌, ◌≤◌, ◌<◌, length, get_or};
ghost use Rattle.card.specs.Layout.{greatest_nodes, depth_limit, run_below};
ghost use Rattle.walk.specs.Descent.{child_index, slot_of, outside, look_in, down_in, child_at, is_fault, passed_with, root_position, way_from, leaf_of, run_over, beside_after, beside_by};
ghost use Rattle.walk.specs.Descent.{landing_of, end_of, seek};

// The slot of a key in a leaf: the first of the eleven whose key word is the key.
// Called and not compiled in: its eleven tests are unrolled, 1,100 bytes over all callers, for seven instructions of a find.
#[inline(never)]
#[tactic(auto, using(crate::proofs::DescentLaws::slot_start, crate::proofs::DescentLaws::slot_here, crate::proofs::DescentLaws::slot_next, crate::proofs::DescentLaws::slot_end))]
pub fn find_slot(node: &[u32], key: u32) -> Option<usize>
    requires { length node.now ≡ 24 }
    ensures { result ≡ slot_of node.now key }
{
    let mut i: usize = 0;
    // by hand: the form asked for is "a loop over eleven slots that breaks with the slot's number", and no `for` breaks with a value
    loop {
        if card::SLOTS <= i {
            break None;
        }
        if node[card::KEYS + i] == key {
            break Some(i);
        }
        i += 1;
    }
}

// Which child of an internal node with children a key takes: one pass over routing keys and children.
fn child_index(node: &[u32], key: u32) -> usize
    requires { (length node.now ≡ 24) × (get_or node.now 12 0 ≡ 0 → ⊥) }
    ensures { result ≡ child_index node.now key }
{
    for i in 0..card::SLOTS - 1 {
        if key < node[card::KEYS + i] {
            return i;
        }
        if node[card::SECOND_CHILD + i] == 0 {
            return i;
        }
    }
    card::SLOTS - 1
}

// "9: node number 0 or above N"
#[tactic(auto, unfolding(crate::specs::Descent::outside))]
fn is_outside(n: usize, m: usize) -> bool
    ensures { result ≡ outside n m }
{
    m == 0 || n < m
}

// What a node is.
#[derive(Clone, Copy)]
pub enum Look {
    Nowhere,
    Leaf,
    Inner,
}

// "kind not 1 to 3"
#[tactic(auto, unfolding(crate::specs::Descent::look_in))]
fn look_in(node: &[u32]) -> Look
    requires { length node.now ≡ 24 }
    ensures { result ≡ look_in node.now }
{
    let kind = node[0];
    if kind == card::LEAF {
        return Look::Leaf;
    }
    if kind != card::INTERNAL {
        if kind != card::TAGGED {
            return Look::Nowhere;
        }
    }
    Look::Inner
}

// One node of a way: what it is and, of an internal node with children, which of them the key takes and its number.
#[derive(Clone, Copy)]
pub enum Down {
    Nowhere,
    Leaf,
    Childless,
    Inner { index: usize, child: usize },
}

// Every loop down the card goes by this: four loops, each with what it alone carries, since a find through another's is slower
// (docs/DECISIONS.md, "The loops for it"). Compiled into each, since a call for each node took a third of a find's instructions.
#[inline(always)]
#[tactic(auto, using(crate::proofs::DescentLaws::index_le, crate::proofs::DescentLaws::down_childless, crate::proofs::DescentLaws::down_inner))]
fn go_down(node: &[u32], key: u32) -> Down
    requires { length node.now ≡ 24 }
    ensures { result ≡ down_in node.now key }
{
    match look_in(node) {
        Look::Nowhere => Down::Nowhere,
        Look::Leaf => Down::Leaf,
        Look::Inner => {
            if node[card::VALUES] == 0 {
                return Down::Childless;
            }
            let index = child_index(node, key);
            Down::Inner {
                index,
                child: node[card::VALUES + index] as usize,
            }
        }
    }
}

// "9: .. more than 10 internal nodes": whether so many are passed that one more is too many.
fn is_too_deep(depth: usize) -> bool
    ensures { (result ≡ true → depth ≡ depth_limit) × (result ≡ false → depth ≡ depth_limit → ⊥) }
{
    depth == card::DEPTH_LIMIT
}

// How many internal nodes are passed when the way goes on below this node, "tagged ones counted" (document 02, W-203): all but a leaf.
#[tactic(auto, unfolding(crate::specs::Descent::passed_with))]
fn passed_with(node: &[u32], depth: usize) -> usize
    requires { (length node.now ≡ 24) × (depth ≤ depth_limit) }
    ensures { result ≡ passed_with node.now depth }
{
    if node[0] == card::LEAF {
        depth
    } else {
        depth + 1
    }
}

// The leaf that a key leads to, and how many internal nodes stand above it.
#[derive(Clone, Copy)]
pub struct Reached {
    pub node: usize,
    pub depth: usize,
}

// None is refusal 9. A find needs the leaf alone, and so keeps no position.
#[tactic(auto, using(crate::proofs::DescentLaws::inside, crate::proofs::DescentLaws::node_words, crate::proofs::DescentLaws::passed_inner))]
pub fn find_leaf(card: &[u32], n: usize, key: u32, root: usize) -> Option<Reached>
    requires { (length card.now ≡ 8 + 24 * n) × (n ≤ greatest_nodes) }
    ensures { result ≡ leaf_of (way_from card.now n key depth_limit (root_position root)) }
{
    let mut m = root;
    let mut depth: usize = 0;
    loop {
        if is_outside(n, m) {
            return None;
        }
        let node = card::node_at(card, m);
        match go_down(node, key) {
            Down::Leaf => {
                return Some(Reached { node: m, depth });
            }
            Down::Nowhere | Down::Childless => {
                return None;
            }
            Down::Inner { index: _, child } => {
                if is_too_deep(depth) {
                    return None;
                }
                depth = passed_with(node, depth);
                m = child;
            }
        }
    }
}

// What stands right after a child: the child after it, or, where there is none, what stands beside its parent. The word after the last
// of eleven children is the node's last one, which is 0.
#[tactic(auto, unfolding(crate::specs::Descent::beside_after))]
fn beside_after(node: &[u32], index: usize, beside: usize) -> usize
    requires { (length node.now ≡ 24) × (index ≤ 10) }
    ensures { result ≡ beside_after node.now index beside }
{
    let next = node[card::SECOND_CHILD + index] as usize;
    if next == 0 {
        return beside;
    }
    next
}

// The leaf that a key leads to, the number of the deepest node that stands right after the way there, 0 where there is none, and how many
// internal nodes stand above the leaf.
#[derive(Clone, Copy)]
pub struct Beside {
    pub node: usize,
    pub beside: usize,
    pub depth: usize,
}

// None is refusal 9.
#[tactic(auto, using(crate::proofs::DescentLaws::inside, crate::proofs::DescentLaws::node_words, crate::proofs::DescentLaws::taken_le, crate::proofs::DescentLaws::passed_inner))]
pub fn find_beside(card: &[u32], n: usize, key: u32, root: usize) -> Option<Beside>
    requires { (length card.now ≡ 8 + 24 * n) × (n ≤ greatest_nodes) }
    ensures { result ≡ beside_by card.now key 0 (way_from card.now n key depth_limit (root_position root)) }
{
    let mut m = root;
    let mut beside: usize = 0;
    let mut depth: usize = 0;
    loop {
        if is_outside(n, m) {
            return None;
        }
        let node = card::node_at(card, m);
        match go_down(node, key) {
            Down::Leaf => {
                return Some(Beside {
                    node: m,
                    beside,
                    depth,
                });
            }
            Down::Nowhere | Down::Childless => {
                return None;
            }
            Down::Inner { index, child } => {
                if is_too_deep(depth) {
                    return None;
                }
                beside = beside_after(node, index, beside);
                depth = passed_with(node, depth);
                m = child;
            }
        }
    }
}

// A node on a key's way: its number, the word that links to it, its parent (0 for the root), which child of its parent
// it is, and the word that links to its parent.
#[derive(Clone, Copy)]
pub struct Position {
    pub node: usize,
    pub link: usize,
    pub parent: usize,
    pub index: usize,
    pub above: usize,
}

// The position of a child of the node at a position.
fn child_of(p: Position, index: usize, child: usize) -> Position
    requires { (1 ≤ p.node) × (p.node ≤ greatest_nodes) × (index ≤ 10) }
    ensures { result ≡ child_at p index child }
{
    Position {
        node: child,
        link: card::HEADER_WORDS + card::NODE_WORDS * (p.node - 1) + (card::VALUES + index),
        parent: p.node,
        index,
        above: p.link,
    }
}

// "a tagged node, or a non-root node with fewer than 2 pairs or children"
fn is_fault(node: &[u32], parent: usize) -> bool
    requires { length node.now ≡ 24 }
    ensures { result ≡ is_fault node.now parent }
{
    if parent == 0 {
        return false;
    }
    let kind = node[0];
    if kind == card::TAGGED {
        return true;
    }
    if kind == card::LEAF {
        return card::pair_count(node) < 2;
    }
    node[card::VALUES] == 0 || node[card::SECOND_CHILD] == 0
}

// Whether a walk that seeks faults stops here.
fn stops(node: &[u32], parent: usize, seeks: bool) -> bool
    requires { length node.now ≡ 24 }
    ensures { result ≡ seeks && is_fault node.now parent }
{
    seeks && is_fault(node, parent)
}

// Where a way ends: at refusal 9, at its leaf, below so many internal nodes, or at the first fault.
#[derive(Clone, Copy)]
pub enum End {
    Refused,
    Leaf { position: Position, depth: usize },
    Fault(Position),
}

// A key's way down from the root, to its end; faults are passed by where none is sought. A fault is told before what refuses the way.
// Compiled into its callers, since as a call it took 50 instructions more of each step that plans.
#[inline(always)]
#[tactic(auto, using(crate::proofs::DescentLaws::inside, crate::proofs::DescentLaws::node_words, crate::proofs::DescentLaws::taken_le, crate::proofs::DescentLaws::passed_inner))]
pub fn descend(card: &[u32], n: usize, key: u32, root: usize, seeks: bool) -> End
    requires { (length card.now ≡ 8 + 24 * n) × (n ≤ greatest_nodes) }
    ensures { result ≡ end_of card.now seeks (way_from card.now n key depth_limit (root_position root)) }
{
    let mut p = Position {
        node: root,
        link: card::ROOT_PLACE,
        parent: 0,
        index: 0,
        above: 0,
    };
    let mut depth: usize = 0;
    loop {
        if is_outside(n, p.node) {
            return End::Refused;
        }
        let node = card::node_at(card, p.node);
        match go_down(node, key) {
            Down::Nowhere => {
                return End::Refused;
            }
            Down::Leaf => {
                if stops(node, p.parent, seeks) {
                    return End::Fault(p);
                }
                return End::Leaf { position: p, depth };
            }
            Down::Childless => {
                if stops(node, p.parent, seeks) {
                    return End::Fault(p);
                }
                return End::Refused;
            }
            Down::Inner { index, child } => {
                if stops(node, p.parent, seeks) {
                    return End::Fault(p);
                }
                if is_too_deep(depth) {
                    return End::Refused;
                }
                depth = passed_with(node, depth);
                p = child_of(p, index, child);
            }
        }
    }
}

// The first violation on a key's way, if there is one.
#[derive(Clone, Copy)]
pub enum Search {
    Refused,
    Balanced,
    Violation(Position),
}

#[tactic(auto, unfolding(crate::specs::Descent::seek, crate::specs::Descent::search_of))]
pub fn find_violation(card: &[u32], n: usize, key: u32, root: usize) -> Search
    requires { (length card.now ≡ 8 + 24 * n) × (n ≤ greatest_nodes) }
    ensures { result ≡ seek card.now n key depth_limit (root_position root) }
{
    match descend(card, n, key, root, true) {
        End::Refused => Search::Refused,
        End::Leaf { .. } => Search::Balanced,
        End::Fault(p) => Search::Violation(p),
    }
}

// The run above the children of a node with so many.
#[tactic(auto, unfolding(card::specs::Layout::run_below))]
fn run_below(count: usize, run: usize) -> usize
    requires { run ≤ depth_limit }
    ensures { result ≡ run_below count run }
{
    if count == card::SLOTS { run + 1 } else { 0 }
}

// How many 11-child nodes stand without a break straight above the leaf that a key leads to. It is asked only where a leaf may be
// split, so that no other way counts children.
#[tactic(auto, using(crate::proofs::DescentLaws::inside, crate::proofs::DescentLaws::node_words))]
pub fn run_above(card: &[u32], n: usize, key: u32, root: usize) -> usize
    requires { (length card.now ≡ 8 + 24 * n) × (n ≤ greatest_nodes) }
    ensures { result ≡ run_over card.now 0 (way_from card.now n key depth_limit (root_position root)).inner }
{
    let mut m = root;
    let mut run: usize = 0;
    for _ in 0..card::DEPTH_LIMIT + 1 {
        if is_outside(n, m) {
            return run;
        }
        let node = card::node_at(card, m);
        match go_down(node, key) {
            Down::Nowhere | Down::Leaf => {
                return run;
            }
            Down::Childless => {
                return 0;
            }
            Down::Inner { index: _, child } => {
                run = run_below(card::child_count(node), run);
                m = child;
            }
        }
    }
    run
}

// The leaf that an update's key leads to, the word that links to it, and how many 11-child nodes stand without a break
// straight above it.
#[derive(Clone, Copy)]
pub struct Landing {
    pub node: usize,
    pub link: usize,
    pub run: usize,
}

// None is refusal 9.
pub fn find_landing(card: &[u32], n: usize, key: u32, root: usize) -> Option<Landing>
    requires { (length card.now ≡ 8 + 24 * n) × (n ≤ greatest_nodes) }
    ensures { result ≡ landing_of card.now (way_from card.now n key depth_limit (root_position root)) }
{
    let End::Leaf { position, .. } = descend(card, n, key, root, false) else {
        return None;
    };
    Some(Landing {
        node: position.node,
        link: position.link,
        run: run_above(card, n, key, root),
    })
}
