// The next ration number (document 02, W-201): the pair with the smallest key above a number.

#![tactic(auto)]

ghost use Rattle.std.specs.Prelude.{◌≡◌, ◌≤◌, length};
ghost use Rattle.card.specs.Layout.{greatest_nodes, depth_limit, leaf_pairs};
ghost use Rattle.card.specs.Header.{Sized};
ghost use Rattle.walk.specs.Descent.{root_position, way_from, leaf_of, depth_of};
ghost use Rattle.walk_next.specs.Successor.{IsKey, nearer_key, least_above, least_of, next_along, next_of, carried, next_depth};
ghost use Rattle.walk_next.specs.Next.{told, next_told, depth_told};

use card::Refusal;

// The smallest key above a number, of the slots looked at so far; 2^32, above every key, where there is none. One slot more: an empty
// one has key word 0, which is above no number. It is no Option: unrolled, the eleven slots are then choices of one number and not of two.
#[tactic(auto, unfolding(crate::specs::Successor::nearer_key))]
fn nearer(least: u64, key: u32, after: u32) -> u64
    ensures { result ≡ nearer_key after key least }
{
    if key <= after {
        return least;
    }
    if least < key as u64 {
        return least;
    }
    key as u64
}

// The smallest key above a number of a leaf: its slots are not sorted, so all eleven are looked at, the last first.
fn least_key(node: &[u32], after: u32) -> u64
    requires { length node.now ≡ 24 }
    ensures { IsKey (least_above after (leaf_pairs node.now)) result }
{
    let mut least = card::KEY_LIMIT;
    for i in (0..card::SLOTS).rev() {
        least = nearer(least, node[card::KEYS + i], after);
    }
    least
}

// A number and the value beside it.
#[derive(Clone, Copy, Debug, PartialEq, Eq)]
pub struct Pair {
    pub key: u32,
    pub value: u32,
}

// The pair with that key: its value is that of the first slot that has it, looked for only now, since a value carried along took 100
// instructions more.
fn least_above(node: &[u32], after: u32) -> Option<Pair>
    requires { length node.now ≡ 24 }
    ensures { least_of result ≡ least_above after (leaf_pairs node.now) }
{
    let least = least_key(node, after);
    if least == card::KEY_LIMIT {
        return None;
    }
    let key = least as u32;
    let slot = walk::find_slot(node, key)?;
    Some(Pair {
        key,
        value: node[card::VALUES + slot],
    })
}

// What the call answers: the pair, where there is one, and how many internal nodes the given number's own way passed, also where the
// answer is in the next leaf (document 02, W-203).
#[derive(Clone, Copy, Debug, PartialEq, Eq)]
pub struct NextPair {
    pub pair: Option<Pair>,
    pub depth: usize,
}

// In the leaf that the number leads to, else in the first leaf of the node that stands right after the way there, to which a second way
// leads, by first children. The two ways are rounds of one loop: as two calls they took a third more instructions.
fn next_in(card: &[u32], n: usize, after: u32, root: usize) -> Result<NextPair, Refusal>
    requires { Sized greatest_nodes (length card.now) n }
    ensures next { next_told result ≡ next_along card.now n after (way_from card.now n after depth_limit (root_position root)) }
    ensures depth { depth_told result
        ≡ carried (depth_of (leaf_of (way_from card.now n after depth_limit (root_position root)))) (next_told result) }
{
    let mut from = root;
    let mut key = after;
    // the depth of the number's own leaf, in the second round: that of the first way, and not of the second
    let mut own: Option<usize> = None;
    loop {
        let Some(leaf) = walk::find_beside(card, n, key, from) else {
            return Err(Refusal::WrongNode);
        };
        let told = own.unwrap_or(leaf.depth);
        if let Some(pair) = least_above(card::node_at(card, leaf.node), after) {
            return Ok(NextPair {
                pair: Some(pair),
                depth: told,
            });
        }
        if own.is_some() || leaf.beside == 0 {
            return Ok(NextPair {
                pair: None,
                depth: told,
            });
        }
        from = leaf.beside;
        key = 0;
        own = Some(told);
    }
}

// "the call answers the pair with the smallest key greater than it, or none exactly when the table holds no such key. It reads the
// card only, like a find, and may come between steps." It hands on how many internal nodes the number's own way passed. `greatest` is the greatest N
// that the calls are made for.
pub fn next_with_depth(
    card: &[u32],
    line: u32,
    after: u32,
    greatest: usize,
) -> Result<NextPair, Refusal>
    ensures next { next_told result ≡ next_of greatest line card.now after }
    ensures depth { depth_told result ≡ next_depth greatest line card.now after }
    ensures limit { depth_told result ≤ depth_limit }
{
    let n = card::checked_nodes(card, greatest)?;
    if !card::has_line(card, line) {
        return Err(Refusal::WrongLine);
    }
    next_in(card, n, after, card::root_of(card, line))
}

// The same without the depth.
pub fn next_pair(
    card: &[u32],
    line: u32,
    after: u32,
    greatest: usize,
) -> Result<Option<Pair>, Refusal>
    ensures { told result ≡ next_of greatest line card.now after }
{
    let next = next_with_depth(card, line, after, greatest)?;
    Ok(next.pair)
}
