// A first look at a node: its number, its kind, its words, and whether it is a violation.
ghost use Rattle.std.specs.Prelude.{◌≡◌, true, ◌+◌, ◌*◌, ◌≤◌, length, drop, None};
ghost use Rattle.card.specs.Layout.{greatest_nodes, node_at, key_words};
ghost use Rattle.card_family.specs.Families.{family_count};
ghost use Rattle.card_free.specs.NodeSet.{word_count, nodes_of};
ghost use Rattle.card_check.specs.Check.{findings_of, noted, look_of, Looks, enter_leaf, enter_inner, enter_kind, enter_node};
ghost use Rattle.card_check.specs.Counting.{keys_counted, EntryCounts};

use crate::leaves::{count_leaf, leaf_pairs};
use crate::unused::unused_is_zero;
use crate::{Entry, FOUND_WORDS, KEY, RUN, TOTALS, VIOLATED};

// One violation more goes into the findings; refused where there was one before.
fn with_violation(found: &mut [u32], entry: Entry, key: u32, run: u32) -> Option<Entry>
    requires { length found.old ≡ 3 + family_count }
    ensures looks { Looks result found.old found.new (λ f. noted true entry f key run) }
    ensures found_unchanged { drop 3 found.new ≡ drop 3 found.old }
{
    if found[VIOLATED] != 0 {
        return None;
    }
    found[VIOLATED] = 1;
    found[KEY] = key;
    found[RUN] = run;
    Some(entry)
}

// A leaf is looked at, its number already taken off the free nodes.
fn enter_leaf(node: &[u32], low: u32, high: u64, root: bool, found: &mut [u32]) -> Option<Entry>
    requires { (length node.now ≡ 24) × (length found.old ≡ 3 + family_count) }
    ensures looks { Looks result found.old found.new (enter_leaf node.now low high root) }
    ensures found_after { (result ≡ None → ⊥) → drop 3 found.new ≡ keys_counted (key_words node.now) (drop 3 found.old) }
{
    let count = leaf_pairs(node, low, high)?;
    count_leaf(node, low, high, count, &mut found[TOTALS..FOUND_WORDS]);
    if root {
        return Some(Entry::Leaf);
    }
    match count {
        0 => None,
        1 => with_violation(found, Entry::Leaf, low, 0),
        _ => Some(Entry::Leaf),
    }
}

// An internal node, tagged or not, is looked at, its number already taken off the free nodes.
fn enter_inner(
    node: &[u32],
    tagged: bool,
    low: u32,
    run: u32,
    root: bool,
    found: &mut [u32],
) -> Option<Entry>
    requires { (length node.now ≡ 24) × (length found.old ≡ 3 + family_count) }
    ensures looks { Looks result found.old found.new (enter_inner node.now tagged low run root) }
    ensures found_unchanged { drop 3 found.new ≡ drop 3 found.old }
{
    let c = card::child_count(node);
    if c == 0 || !unused_is_zero(node, c) {
        return None;
    }
    if tagged {
        if root || c != 2 {
            return None;
        }
        return with_violation(found, Entry::Inner(c), low, run);
    }
    if c < 2 {
        if root {
            return None;
        }
        return with_violation(found, Entry::Inner(c), low, 0);
    }
    Some(Entry::Inner(c))
}

// A node is looked at by its kind, its number already taken off the free nodes.
fn enter_kind(
    node: &[u32],
    low: u32,
    high: u64,
    run: u32,
    root: bool,
    found: &mut [u32],
) -> Option<Entry>
    requires { (length node.now ≡ 24) × (length found.old ≡ 3 + family_count) }
    ensures looks { Looks result found.old found.new (enter_kind node.now low high run root) }
    ensures entry_counts { EntryCounts result node.now (drop 3 found.old) (drop 3 found.new) }
{
    match node[0] {
        card::LEAF => enter_leaf(node, low, high, root, found),
        card::INTERNAL => enter_inner(node, false, low, run, root, found),
        card::TAGGED => enter_inner(node, true, low, run, root, found),
        _ => None,
    }
}

// Node m is looked at for the first time: its number, its kind, its words. Nine arguments: see `node_check`.
pub fn enter(
    card: &[u32],
    n: usize,
    m: usize,
    low: u32,
    high: u64,
    run: u32,
    root: bool,
    free: &mut [u32],
    found: &mut [u32],
) -> Option<Entry>
    requires { (length card.now ≡ 8 + 24 * n) × (n ≤ greatest_nodes) × (length free.old ≡ word_count) × (length found.old ≡ 3 + family_count) }
    ensures found_after { look_of result (findings_of (nodes_of free.new) found.new)
        ≡ enter_node card.now n m low high run root (findings_of (nodes_of free.old) found.old) }
    ensures entry_counts { EntryCounts result (node_at card.now m) (drop 3 found.old) (drop 3 found.new) }
{
    if m == 0 || n < m || !card_free::contains(free, m) {
        return None;
    }
    let node = card::node_at(card, m);
    if node[card::LAST_WORD] != 0 {
        return None;
    }
    card_free::take_out(free, m);
    enter_kind(node, low, high, run, root, found)
}
