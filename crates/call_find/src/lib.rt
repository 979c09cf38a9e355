// The look-up of a key, on the card alone (document 01, "The card", "State, steps and free nodes").

#![tactic(auto)]

ghost use Rattle.std.specs.Prelude.{◌≡◌, ◌+◌, ◌*◌, ◌≤◌, length};
ghost use Rattle.card.specs.Layout.{greatest_nodes, depth_limit};
ghost use Rattle.walk.specs.Descent.{slot_of, root_position, way_from, leaf_of, depth_of};
ghost use Rattle.call_find.specs.Find.{found_in, found_at, find_of, find_depth};
ghost use Rattle.call_find.specs.Found.{held, told, lookup_told, depth_told};

use card::Refusal;

// The value beside a key in a leaf.
#[tactic(auto, using(walk::proofs::DescentLaws::slot_below), unfolding(crate::specs::Find::found_in))]
fn found_in(node: &[u32], key: u32) -> Option<u32>
    requires { length node.now ≡ 24 }
    ensures { held result ≡ found_in node.now (slot_of node.now key) }
{
    let slot = walk::find_slot(node, key)?;
    Some(node[card::VALUES + slot])
}

// The value that a find answers, where the key is held, and how many internal nodes its way passed (document 02, W-203).
#[derive(Clone, Copy, Debug, PartialEq, Eq)]
pub struct Lookup {
    pub found: Option<u32>,
    pub depth: usize,
}

// The value of a key that is not 0, below this root of a card of n nodes.
#[tactic(auto, unfolding(crate::specs::Find::found_at, walk::specs::Descent::depth_of))]
fn found_at(card: &[u32], n: usize, key: u32, root: usize) -> Result<Lookup, Refusal>
    requires { (length card.now ≡ 8 + 24 * n) × (n ≤ greatest_nodes) }
    ensures found { lookup_told result ≡ found_at card.now key (leaf_of (way_from card.now n key depth_limit (root_position root))) }
    ensures depth { depth_told result ≡ depth_of (leaf_of (way_from card.now n key depth_limit (root_position root))) }
{
    let Some(leaf) = walk::find_leaf(card, n, key, root) else {
        return Err(Refusal::WrongNode);
    };
    Ok(Lookup {
        found: found_in(card::node_at(card, leaf.node), key),
        depth: leaf.depth,
    })
}

// "A find is one call on the card alone; it may come between steps and answers by the map at that moment." It hands on how
// many internal nodes it passed. `greatest` is the greatest N that the calls are made for.
pub fn find_with_depth(
    card: &[u32],
    line: u32,
    key: u32,
    greatest: usize,
) -> Result<Lookup, Refusal>
    ensures found { lookup_told result ≡ find_of greatest line card.now key }
    ensures depth { depth_told result ≡ find_depth greatest line card.now key }
    ensures limit { depth_told result ≤ depth_limit }
{
    let n = card::checked_nodes(card, greatest)?;
    if !card::has_line(card, line) {
        return Err(Refusal::WrongLine);
    }
    if key == 0 {
        return Err(Refusal::ZeroKey);
    }
    found_at(card, n, key, card::root_of(card, line))
}

// The same without the depth.
pub fn find(card: &[u32], line: u32, key: u32, greatest: usize) -> Result<Option<u32>, Refusal>
    ensures { told result ≡ find_of greatest line card.now key }
{
    let lookup = find_with_depth(card, line, key, greatest)?;
    Ok(lookup.found)
}
