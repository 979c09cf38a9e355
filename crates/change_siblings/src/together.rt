// What two siblings hold together, gathered in two rows of twelve: keys, and the values or children beside them.
ghost use Rattle.std.specs.Prelude.{◌≡◌, ◌+◌, ◌≤◌, ◌<◌, length};
ghost use Rattle.card.specs.Layout.{children, leaf_pairs};
ghost use Rattle.change_decide.specs.Places.{SiblingsAt};
ghost use Rattle.change_plan.specs.Change.{leaves_together, inners_together};
ghost use Rattle.change_siblings.specs.Siblings.{HoldsTogether, together_at};

use card::{INTERNAL, LEAF};
use change_decide::left_sibling;
use change_rows::nodes::{children, routing_keys};
use change_rows::pairs::SortedPairs;
use change_rows::words::Row;
use walk::Position;

// The kind of the two, their keys, and the values or children beside these.
#[derive(Drop)]
pub struct Held {
    pub kind: u32,
    pub keys: Row,
    pub beside: Row,
}

// Two leaves: "Pairs in new leaves ascend from slot 0".
fn gather_leaves(x: &[u32], y: &[u32]) -> Held
    requires { (length x.now ≡ 24) × (length y.now ≡ 24) × (length (leaf_pairs x.now) + length (leaf_pairs y.now) ≤ 12) }
    ensures { HoldsTogether result (leaves_together x.now y.now) }
{
    let mut pairs = SortedPairs::new();
    pairs.insert_leaf(y);
    pairs.insert_leaf(x);
    let (keys, beside) = pairs.into_rows();
    Held {
        kind: LEAF,
        keys,
        beside,
    }
}

// Two internal nodes "bring the routing key between them down".
fn gather_inners(x: &[u32], between: u32, y: &[u32]) -> Held
    requires { (length x.now ≡ 24) × (length y.now ≡ 24) × (0 < length (children x.now)) × (0 < length (children y.now))
        × (length (children x.now) + length (children y.now) ≤ 12) }
    ensures { HoldsTogether result (inners_together x.now between y.now) }
{
    let mut keys = Row::new();
    keys.append(routing_keys(x));
    keys.push(between);
    keys.append(routing_keys(y));
    let mut beside = Row::new();
    beside.append(children(x));
    beside.append(children(y));
    Held {
        kind: INTERNAL,
        keys,
        beside,
    }
}

// The two siblings at a position, by their kind.
pub fn gather_siblings(card: &[u32], p: Position) -> Held
    requires { SiblingsAt card.now p }
    ensures { HoldsTogether result (together_at card.now p) }
{
    let parent = card::node_at(card, p.parent);
    let j = left_sibling(p);
    let x = card::node_at(card, parent[card::VALUES + j] as usize);
    let y = card::node_at(card, parent[card::SECOND_CHILD + j] as usize);
    if x[0] == LEAF {
        gather_leaves(x, y)
    } else {
        gather_inners(x, parent[card::KEYS + j], y)
    }
}
