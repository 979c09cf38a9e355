// Two nodes that share what there is, "the left one getting the larger half", and the key between them. Kind, keys and what is beside
// these are three parameters: the two slices are lent from rows, and a struct of them would be taken apart again by `write_node`.
ghost use Rattle.std.specs.Prelude.{◌≡◌, ◌++◌, ◌≤◌, ◌<◌, length, drop};
ghost use Rattle.change_plan.specs.Change.{key_between};
ghost use Rattle.change_rows.specs.Halves.{together, keys_for, Whole, left_words, right_words, halves_words};

use crate::nodes::write_node;
use card::{NODE_WORDS, TWO_NODES};

// How many keys a node has that has so many values or children: "With c children the routing keys are words 1 to c − 1".
fn keys_for(kind: u32, values: usize) -> usize
    requires { 0 < values }
    ensures { result ≡ keys_for kind values }
{
    if kind == card::LEAF {
        values
    } else {
        values - 1
    }
}

// The key between the two: "Between shared leaves the routing key is the right one's smallest. Internal nodes .. sharing sends one up".
pub fn key_between(kind: u32, keys: &[u32], beside: &[u32]) -> u32
    requires { Whole kind keys.now beside.now }
    ensures { result ≡ key_between (together kind keys.now beside.now) }
{
    keys[keys_for(kind, (beside.len() + 1) / 2)]
}

// The left of the two.
fn write_left(words: &mut [u32], kind: u32, keys: &[u32], beside: &[u32])
    requires { (length words.old ≡ 24) × Whole kind keys.now beside.now }
    ensures { words.new ≡ left_words (together kind keys.now beside.now) }
{
    let half = (beside.len() + 1) / 2;
    let taken = keys_for(kind, half);
    write_node(words, kind, &keys[..taken], &beside[..half]);
}

// The right of the two.
fn write_right(words: &mut [u32], kind: u32, keys: &[u32], beside: &[u32])
    requires { (length words.old ≡ 24) × Whole kind keys.now beside.now }
    ensures { words.new ≡ right_words (together kind keys.now beside.now) }
{
    let from = (beside.len() + 1) / 2;
    write_node(words, kind, &keys[from..], &beside[from..]);
}

// The 48 words of the two nodes, at the front of a row: "written left, right, then above".
pub fn write_halves(words: &mut [u32], kind: u32, keys: &[u32], beside: &[u32])
    requires { (48 ≤ length words.old) × Whole kind keys.now beside.now }
    ensures { words.new ≡ halves_words (together kind keys.now beside.now) ++ drop 48 words.old }
{
    write_left(&mut words[0..NODE_WORDS], kind, keys, beside);
    write_right(&mut words[NODE_WORDS..TWO_NODES], kind, keys, beside);
}
