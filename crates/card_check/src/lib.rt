// The check that a table is sound, and what it learns on the way: the free nodes and the violation
// (document 01, "A sound table"). Each node is visited once.

#![tactic(auto)]

mod entering;
mod leaves;
mod unused;

ghost use Rattle.std.specs.Prelude.{◌≡◌, true, false, ℕ, ◌+◌, ◌*◌, ◌-◌, ◌≤◌, ◌<◌, length, drop, Some};
ghost use Rattle.card_family.specs.Families.{family_count};
ghost use Rattle.card_free.specs.NodeSet.{word_count, nodes_of};
ghost use Rattle.card.specs.Layout.{greatest_nodes, depth_limit, children, routing_keys, run_below};
ghost use Rattle.card_check.specs.Check.{findings_of, checked_of, height_of, children_check, node_check, tree_check, table_check, range_end, range_end_of};
ghost use Rattle.card_check.specs.Counting.{children_counted, node_counted, table_counted};

use entering::enter;

// What was learnt so far is lent: the nodes not reached, and three words of findings: whether a violation was met, a key that leads
// to it, and how many 11-child nodes stand without a break straight above it where it is a tagged node. So no check copies it.
pub const VIOLATED: usize = 0;

pub const KEY: usize = 1;

pub const RUN: usize = 2;

// After them stand the totals by family (document 02, W-204), counted in the same pass.
pub const TOTALS: usize = 3;

pub const FOUND_WORDS: usize = TOTALS + card_family::FAMILIES;

// What a first look at a sound node finds: a leaf, or an internal node with so many children.
#[derive(Clone, Copy)]
pub enum Entry {
    Leaf,
    Inner(usize),
}

// How many 11-child nodes stand without a break straight above the children of a node with c children.
fn child_run(c: usize, run: u32) -> u32
    requires { run < depth_limit }
    ensures { result ≡ run_below c run }
{
    if c == card::SLOTS { run + 1 } else { 0 }
}

// The end of child i's range, which begins at `from` in a node whose own range ends at `high`: the routing key after the
// child, or `high` for the last. None where that key does not rise above `from` or is not below `high`.
fn range_end(node: &[u32], c: usize, i: usize, from: u32, high: u64) -> Option<u64>
    requires { (length node.now ≡ 24) × (c ≡ length (children node.now)) × (i < c) }
    ensures { range_end_of result ≡ range_end from high (drop i (routing_keys node.now)) }
{
    if c <= i + 1 {
        return Some(high);
    }
    let key = node[card::KEYS + i];
    let end = u64::from(key);
    if key <= from || high <= end {
        return None;
    }
    Some(end)
}

// Node m and all below it, past at most `levels` internal nodes: the height of a sound part (tagged nodes not counted), or None
// for one that is not sound. Then what the lent words hold says nothing. Ten arguments, here and below, since the numbers that change from
// node to node stay numbers: with `n` to `root` in a struct an opening of 3,000 pairs takes 135,361 instructions and not 127,921.
#[cycle(children_check_node_check)]
fn node_check(
    card: &[u32],
    n: usize,
    m: usize,
    levels: usize,
    low: u32,
    high: u64,
    run: u32,
    root: bool,
    free: &mut [u32],
    found: &mut [u32],
) -> Option<usize>
    requires { (length card.now ≡ 8 + 24 * n) × (n ≤ greatest_nodes) × (run + levels ≤ depth_limit) × (length free.old ≡ word_count) × (length found.old ≡ 3 + family_count) }
    ensures found_after { checked_of result (findings_of (nodes_of free.new) found.new)
        ≡ node_check levels card.now n run root low high m (findings_of (nodes_of free.old) found.old) }
    ensures result_bound { height_of result ≤ levels }
    ensures by_index { (h : ℕ) → result ≡ Some h → drop 3 found.new ≡ node_counted levels card.now m (drop 3 found.old) }
{
    let Entry::Inner(c) = enter(card, n, m, low, high, run, root, free, found)? else {
        return Some(0);
    };
    if levels == 0 {
        return None;
    }
    let node = card::node_at(card, m);
    let below = child_run(c, run);
    let height = children_check(card, node, n, c, levels - 1, low, high, below, free, found)?;
    if node[0] == card::TAGGED {
        return Some(height);
    }
    Some(height + 1)
}

// All c children of an internal node, left to right, each in its range and all equally high. A loop, so that the stack
// holds two frames for each level and not one for each child.
#[cycle(children_check_node_check)]
fn children_check(
    card: &[u32],
    node: &[u32],
    n: usize,
    c: usize,
    levels: usize,
    low: u32,
    high: u64,
    run: u32,
    free: &mut [u32],
    found: &mut [u32],
) -> Option<usize>
    requires { (length card.now ≡ 8 + 24 * n) × (n ≤ greatest_nodes) × (length node.now ≡ 24)
        × (c ≡ length (children node.now)) × (run + levels ≤ depth_limit) × (length free.old ≡ word_count) × (length found.old ≡ 3 + family_count) }
    ensures found_after { checked_of result (findings_of (nodes_of free.new) found.new)
        ≡ children_check (node_check levels card.now n run false) true 0 low high
        (routing_keys node.now) (children node.now) (findings_of (nodes_of free.old) found.old) }
    ensures result_bound { height_of result ≤ levels }
    ensures by_index { (h : ℕ) → result ≡ Some h → drop 3 found.new
        ≡ children_counted (node_counted levels card.now) (children node.now) (drop 3 found.old) }
{
    let mut from = low;
    let mut height = 0;
    for i in 0..c {
        let to = range_end(node, c, i, from, high)?;
        let m = node[card::VALUES + i] as usize;
        let its = node_check(card, n, m, levels, from, to, run, false, free, found)?;
        if i != 0 && its != height {
            return None;
        }
        height = its;
        from = node[card::KEYS + i];
    }
    Some(height)
}

// A whole tree of a card with n nodes, from its root, after what was learnt before it.
pub fn check_tree(
    card: &[u32],
    n: usize,
    root: usize,
    free: &mut [u32],
    found: &mut [u32],
) -> Option<usize>
    requires { (length card.now ≡ 8 + 24 * n) × (n ≤ greatest_nodes) × (length free.old ≡ word_count) × (length found.old ≡ 3 + family_count) }
    ensures found_after { checked_of result (findings_of (nodes_of free.new) found.new)
        ≡ tree_check card.now n root (findings_of (nodes_of free.old) found.old) }
    ensures by_index { (h : ℕ) → result ≡ Some h → drop 3 found.new ≡ node_counted depth_limit card.now root (drop 3 found.old) }
{
    node_check(
        card,
        n,
        root,
        card::DEPTH_LIMIT,
        card::LOWEST_KEY,
        card::KEY_LIMIT,
        0,
        true,
        free,
        found,
    )
}

// The whole table of a card with n nodes.
pub fn check_table(card: &[u32], n: usize, free: &mut [u32], found: &mut [u32]) -> Option<usize>
    requires { (length card.now ≡ 8 + 24 * n) × (n ≤ greatest_nodes) × (length free.old ≡ word_count) × (length found.old ≡ 3 + family_count) }
    ensures found_after { checked_of result (findings_of (nodes_of free.new) found.new) ≡ table_check card.now n }
    ensures by_index { (h : ℕ) → result ≡ Some h → drop 3 found.new ≡ table_counted card.now }
{
    card_free::fill(free, n);
    found[..FOUND_WORDS].fill(0);
    check_tree(card, n, card[card::ROOT_PLACE] as usize, free, found)
}
