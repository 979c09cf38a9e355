// "Tagged node: parent with at most 10 children .. Parent with 11 ..": the parent takes the key and the children of its tagged child in.
ghost use Rattle.std.specs.Prelude.{◌≡◌, [], ◌∷◌, ◌+◌, ◌-◌, ◌≤◌, ◌<◌, length, take};
ghost use Rattle.laws.specs.Lists.{pad};
ghost use Rattle.card.specs.Layout.{greatest_nodes, children};
ghost use Rattle.change_decide.specs.Places.{parent_at, TaggedAt};
ghost use Rattle.change_rows.specs.Nodes.{words_laid};
ghost use Rattle.change_split.specs.Split.{keys_taken_in, children_taken_in, absorb_at, split_parent_at};

use crate::split::lay_under;
use card::{INTERNAL, NODE_WORDS};
use change_rows::nodes::{children, routing_keys, write_node};
use change_rows::words::Row;
use walk::Position;

// The nodes that leave the tree with a tagged node.
pub fn cut_tagged(p: Position) -> [u32; 3]
    requires { (p.parent ≤ greatest_nodes) × (p.node ≤ greatest_nodes) }
    ensures { result ≡ pad 3 (p.parent ∷ p.node ∷ []) }
{
    [p.parent as u32, p.node as u32, 0]
}

// The keys and the children of the parent with those of its tagged child taken in.
fn take_in(card: &[u32], p: Position) -> (Row, Row)
    requires { TaggedAt card.now p }
    ensures { (result.0 ≡ keys_taken_in card.now p) × (result.1 ≡ children_taken_in card.now p) }
{
    let parent = card::node_at(card, p.parent);
    let tagged = card::node_at(card, p.node);
    let i = p.index;
    let keys = Row::replaced(routing_keys(parent), i, i, routing_keys(tagged));
    let kids = Row::replaced(children(parent), i, i + 1, children(tagged));
    (keys, kids)
}

// "parent with at most 10 children: a new copy of the parent takes its key and children in"
pub fn lay_absorb(card: &[u32], p: Position, nodes: [u32; 3], values: &mut [u32])
    requires { TaggedAt card.now p × (length (children (parent_at card.now p)) ≤ 10) × (length values.old ≡ 73) }
    ensures { values.new ≡ words_laid (absorb_at card.now p nodes) values.old }
{
    let (keys, kids) = take_in(card, p);
    write_node(
        &mut values[0..NODE_WORDS],
        INTERNAL,
        keys.as_slice(),
        kids.as_slice(),
    );
    values[NODE_WORDS] = nodes[0];
}

// "Parent with 11: the 12 children go 6 and 6 into two internal nodes, the middle key above them in a tagged node"
pub fn lay_split_parent(card: &[u32], p: Position, nodes: [u32; 3], values: &mut [u32])
    requires { TaggedAt card.now p × (10 < length (children (parent_at card.now p))) × (length values.old ≡ 73) }
    ensures { values.new ≡ words_laid (split_parent_at card.now p nodes) values.old }
{
    let (keys, kids) = take_in(card, p);
    lay_under(
        p.above,
        INTERNAL,
        keys.as_slice(),
        kids.as_slice(),
        nodes,
        values,
    );
}
