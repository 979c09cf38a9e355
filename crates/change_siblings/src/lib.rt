// "Underfull non-root node": what it has together with a sibling is laid out in one new node or two, under a new copy of the parent.
// The row of values is lent, and the numbers of the new nodes are given; the places are laid out elsewhere, they go by the numbers alone.

#![tactic(auto)]

mod together;

ghost use Rattle.std.specs.Prelude.{◌≡◌, ◌++◌, ◌+◌, ◌≤◌, ◌<◌, length, get_or, take, drop};
ghost use Rattle.laws.specs.Lists.{pad};
ghost use Rattle.card.specs.Layout.{node_image};
ghost use Rattle.change_rows.specs.Nodes.{image_of, words_laid};
ghost use Rattle.change_rows.specs.Halves.{halves_words};
ghost use Rattle.change_decide.specs.Decide.{left_sibling};
ghost use Rattle.change_decide.specs.Places.{parent_at, together_count, SiblingsAt};
ghost use Rattle.change_plan.specs.Change.{key_between, copied, siblings_cut};
ghost use Rattle.change_siblings.specs.Siblings.{together_at, share_at, merge_at, merge_root_at};

use card::{INTERNAL, NODE_WORDS, THREE_NODES, TWO_NODES};
use change_decide::left_sibling;
use change_rows::halves::{key_between, write_halves};
use change_rows::nodes::{children, routing_keys, write_node};
use change_rows::words::Row;
use together::gather_siblings;
use walk::Position;

// A new copy of the parent. In the place of the two siblings it has the first of the nodes given, in the place of the routing key
// between them the keys between these, one fewer; the node given next is the copy.
fn copy_parent(card: &[u32], p: Position, keys: &[u32], nodes: [u32; 3], words: &mut [u32])
    requires { SiblingsAt card.now p × (length keys.now ≤ 1) × (length words.old ≡ 24) }
    ensures { words.new
        ≡ image_of (copied (get_or nodes (length keys.now + 1) 0) (parent_at card.now p) (left_sibling p) keys.now
        (take (length keys.now + 1) nodes)) }
{
    let parent = card::node_at(card, p.parent);
    let j = left_sibling(p);
    let routing = Row::replaced(routing_keys(parent), j, j + 1, keys);
    let under = Row::replaced(children(parent), j, j + 2, &nodes[..keys.len() + 1]);
    write_node(words, INTERNAL, routing.as_slice(), under.as_slice());
}

// The nodes that leave the tree where the two siblings are made anew.
pub fn cut_siblings(card: &[u32], p: Position) -> [u32; 3]
    requires { SiblingsAt card.now p }
    ensures { result ≡ pad 3 (siblings_cut p (parent_at card.now p) (left_sibling p)) }
{
    let parent = card::node_at(card, p.parent);
    let j = left_sibling(p);
    [
        p.parent as u32,
        parent[card::VALUES + j],
        parent[card::SECOND_CHILD + j],
    ]
}

// The two nodes that share what the siblings hold, at the front of the row, and the key between them.
fn lay_halves(card: &[u32], p: Position, values: &mut [u32]) -> u32
    requires { SiblingsAt card.now p × (4 ≤ together_count card.now p) × (48 ≤ length values.old) }
    ensures { (values.new ≡ halves_words (together_at card.now p) ++ drop 48 values.old)
        × (result ≡ key_between (together_at card.now p)) }
{
    let held = gather_siblings(card, p);
    let keys = held.keys.as_slice();
    let beside = held.beside.as_slice();
    write_halves(values, held.kind, keys, beside);
    key_between(held.kind, keys, beside)
}

// The one node that holds what the siblings hold.
fn lay_merged(card: &[u32], p: Position, words: &mut [u32])
    requires { SiblingsAt card.now p × (together_count card.now p < 4) × (length words.old ≡ 24) }
    ensures { words.new
        ≡ node_image (together_at card.now p).kind (together_at card.now p).keys (together_at card.now p).values }
{
    let held = gather_siblings(card, p);
    write_node(
        words,
        held.kind,
        held.keys.as_slice(),
        held.beside.as_slice(),
    );
}

// "Together 4 or more: shared out .. under a new copy of the parent."
pub fn lay_share(card: &[u32], p: Position, nodes: [u32; 3], values: &mut [u32])
    requires { SiblingsAt card.now p × (4 ≤ together_count card.now p) × (length values.old ≡ 73) }
    ensures { values.new ≡ words_laid (share_at card.now p nodes) values.old }
{
    let key = [lay_halves(card, p, values)];
    copy_parent(card, p, &key, nodes, &mut values[TWO_NODES..THREE_NODES]);
    values[THREE_NODES] = nodes[2];
}

// "Together 3 or fewer: merged, the parent copied with one child less"
pub fn lay_merge(card: &[u32], p: Position, nodes: [u32; 3], values: &mut [u32])
    requires { SiblingsAt card.now p × (together_count card.now p < 4) × (length values.old ≡ 73) }
    ensures { values.new ≡ words_laid (merge_at card.now p nodes) values.old }
{
    lay_merged(card, p, &mut values[0..NODE_WORDS]);
    copy_parent(card, p, &[], nodes, &mut values[NODE_WORDS..TWO_NODES]);
    values[TWO_NODES] = nodes[1];
}

// "if that parent is the root with 2 children, the merged node becomes the root"
pub fn lay_merge_root(card: &[u32], p: Position, nodes: [u32; 3], values: &mut [u32])
    requires { SiblingsAt card.now p × (together_count card.now p < 4) × (length values.old ≡ 73) }
    ensures { values.new ≡ words_laid (merge_root_at card.now p nodes) values.old }
{
    lay_merged(card, p, &mut values[0..NODE_WORDS]);
    values[NODE_WORDS] = nodes[0];
}
