// What the program `list` does: it reads a dump from standard input, opens and repairs it in memory, and prints it
// (document 01, "Dumps and the list program"; document 02, W-204). The text is made in a row of bytes before it is written, so that
// the program `test_replay` compares the very text that `list` prints.

#![tactic(auto)]

ghost use Rattle.std.specs.Prelude.{◌≡◌, ◌++◌, ◌+◌, ◌*◌, ◌/◌, ◌≤◌, length, drop};
ghost use Rattle.card.specs.Layout.{program_nodes};
ghost use Rattle.card_family.specs.Families.{family_count};
ghost use Rattle.list_text.specs.Text.{first_line, pair_line, pair_lines, family_shown, family_lines, pairs_of_words, dump_text};
ghost use Rattle.text_row.specs.Filling.{filled, fill};

use card_family::FAMILIES;
use list_pairs::Summary;
use text_row::{print_first, put_all, put_number, put_refusal};

// Room for the longest text: 6,600 pairs, those of 600 leaves, on lines of at most 22 bytes, a line of at most 29 bytes for each family
// (a word and two numbers of at most 10 digits), and a first line with four numbers of at most 20 digits.
pub const TEXT_BYTES: usize = 108 + 29 * FAMILIES + 22 * card::SLOTS * card::PROGRAM_NODES;

pub type Text = [u8; TEXT_BYTES];

// The words of those pairs, key and value.
const PAIR_WORDS: usize = 2 * card::SLOTS * card::PROGRAM_NODES;

// "First line: N, free nodes, internal levels, pairs."
fn put_summary(text: &mut [u8], s: Summary) -> usize
    requires { 108 ≤ length text.old }
    ensures text_after { filled result text.new ≡ fill (first_line s.nodes s.free s.levels (s.words / 2)) (filled 0 text.old) }
    ensures upper_bound { result ≤ 108 }
{
    let nodes = put_number(text, 0, b"nodes ", s.nodes as u64);
    let free = put_number(text, nodes, b" free ", s.free as u64);
    let levels = put_number(text, free, b" levels ", s.levels as u64);
    let pairs = put_number(text, levels, b" pairs ", (s.words / 2) as u64);
    put_all(text, pairs, b"\n")
}

// "Every line ends with one line feed."
fn put_pair(text: &mut [u8], at: usize, key: u32, value: u32) -> usize
    requires { at + 22 ≤ length text.old }
    ensures { filled result text.new ≡ fill (pair_line key value) (filled at text.old) }
{
    let first = put_number(text, at, b"", key as u64);
    let second = put_number(text, first, b" ", value as u64);
    put_all(text, second, b"\n")
}

// "Then key and value": the pairs in the words.
fn put_pairs(text: &mut [u8], at: usize, words: &[u32]) -> usize
    requires { at + 11 * length words.now ≤ length text.old }
    ensures text_after { filled result text.new ≡ fill (pair_lines (pairs_of_words words.now)) (filled at text.old) }
    ensures upper_bound { result ≤ length text.old }
{
    let mut next = at;
    let (pairs, _) = words.as_chunks::<2>();
    for [key, value] in pairs {
        next = put_pair(text, next, *key, *value);
    }
    next
}

// "a line `family F n` for each family with n above 0"
#[tactic(auto, using(crate::proofs::TextLaws::nothing_put))]
fn put_family(text: &mut [u8], at: usize, family: u32, total: u32) -> usize
    requires { at + 29 ≤ length text.old }
    ensures text_after { filled result text.new ≡ fill (family_shown family total) (filled at text.old) }
    ensures upper_bound { result ≤ at + 29 }
{
    if total == 0 {
        return at;
    }
    let first = put_all(text, at, b"family ");
    put_pair(text, first, family, total)
}

// "rising, after its first line": the lines of all families.
fn put_families(text: &mut [u8], at: usize, families: &[u32; FAMILIES]) -> usize
    requires { at + 29 * family_count ≤ length text.old }
    ensures text_after { filled result text.new ≡ fill (family_lines families.now) (filled at text.old) }
    ensures upper_bound { result ≤ at + 29 * family_count }
{
    let mut next = at;
    for (family, total) in families.iter().enumerate() {
        next = put_family(text, next, family as u32, *total);
    }
    next
}

// What `list` prints for a dump, from the start of the row on; the answer is how many bytes it is. The words are those of 600
// nodes, and the pairs those of 600 leaves.
pub fn list_text(dump: &[u8], text: &mut Text) -> usize
    ensures value { result ≡ length (dump_text program_nodes dump.now) }
    ensures text_after { text.new ≡ dump_text program_nodes dump.now ++ drop (length (dump_text program_nodes dump.now)) text.old }
{
    let mut card = [0u32; card::PROGRAM_WORDS];
    let mut out = [0u32; PAIR_WORDS];
    match list_pairs::list_dump(dump, &mut card, &mut out, card::PROGRAM_NODES) {
        Ok(s) => {
            let first = put_summary(text, s);
            let next = put_families(text, first, &s.families);
            put_pairs(text, next, &out[..s.words])
        }
        Err(refusal) => put_refusal(text, refusal.number()),
    }
}

// What the program `list` prints for a dump.
pub fn print_listing(dump: &[u8]) {
    let mut text = [0u8; TEXT_BYTES];
    let n = list_text(dump, &mut text);
    print_first(&text, n);
}

// The longest dump has 57,856 bytes, so that a longer input is noticed.
pub fn list_input() {
    let mut bytes = io::large_buffer();
    let length = io::read_full(0, &mut bytes);
    print_listing(&bytes[..length]);
}
