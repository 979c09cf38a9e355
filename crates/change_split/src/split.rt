// Two nodes that share what there is, "the left one getting the larger half", and one above them, laid out in a row of values.
ghost use Rattle.std.specs.Prelude.{◌≡◌, ℕ, length};
ghost use Rattle.card.specs.Layout.{leaf_pairs};
ghost use Rattle.change_rows.specs.Nodes.{words_laid};
ghost use Rattle.change_rows.specs.Halves.{together, Whole};
ghost use Rattle.change_plan.specs.Change.{kind_above};
ghost use Rattle.change_split.specs.Split.{under, split_leaf_of};

use card::{INTERNAL, LEAF, TAGGED, THREE_NODES, TWO_NODES};
use change_rows::halves::{key_between, write_halves};
use change_rows::nodes::write_node;
use change_rows::pairs::SortedPairs;

// "under a tagged node (internal if it is the root)"
fn kind_above(link: usize) -> u32
    ensures { result ≡ kind_above link }
{
    if link == card::ROOT_PLACE {
        INTERNAL
    } else {
        TAGGED
    }
}

// The two, and the one above them with the key between them.
pub fn lay_under(
    link: usize,
    kind: u32,
    keys: &[u32],
    beside: &[u32],
    nodes: [u32; 3],
    values: &mut [u32],
)
    requires { Whole kind keys.now beside.now × (length values.old ≡ 73) }
    ensures { values.new ≡ words_laid (under link (together kind keys.now beside.now) nodes) values.old }
{
    write_halves(values, kind, keys, beside);
    let key = [key_between(kind, keys, beside)];
    write_node(
        &mut values[TWO_NODES..THREE_NODES],
        kind_above(link),
        &key,
        &nodes[0..2],
    );
    values[THREE_NODES] = nodes[2];
}

// "Leaf full: the 12 pairs go 6 and 6 into two leaves": a leaf, whichever it is, linked from the place, and a pair more.
pub fn lay_split_leaf(
    leaf: &[u32],
    link: usize,
    key: u32,
    value: u32,
    nodes: [u32; 3],
    values: &mut [u32],
)
    requires { (length leaf.now ≡ 24) × (length (leaf_pairs leaf.now) ≡ 11) × (length values.old ≡ 73) }
    ensures { (m : ℕ) → values.new ≡ words_laid (split_leaf_of m link key value leaf.now nodes) values.old }
{
    let mut pairs = SortedPairs::new();
    pairs.insert_leaf(leaf);
    pairs.insert(key, value);
    lay_under(link, LEAF, pairs.keys(), pairs.values(), nodes, values);
}
