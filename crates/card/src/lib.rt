// A card: its length, its header and its nodes (document 01, "The card").
//
//     a card with N nodes                       node m, from word 8 + 24 × (m − 1) on
//       0        1, the mark                      0         its kind: 1 leaf, 2 internal, 3 tagged
//       1        N                                1 to 11   a leaf's keys, or the routing keys between children
//       2        8, the words of the header       12 to 22  the values beside a leaf's keys, or the children
//       3        24, the words of a node          23        0
//       4        the number of the root node
//       5 to 7   0
//       8 on     nodes 1 to N

#![tactic(auto)]

mod refusal;

ghost use Rattle.std.specs.Prelude.{◌≡◌, ℕ, true, false, ◌+◌, ◌*◌, ◌≤◌, length, get_or, unwrap_or, Some, Ok};
ghost use Rattle.card.specs.Layout.{greatest_nodes, limited, node_at, children, leaf_pairs};
ghost use Rattle.card.specs.Lines.{IsLine, has_line, root_of, on_line};
ghost use Rattle.card.specs.Header.{nodes_of_length, header_refusal, card_refusal, Sized};
ghost use Rattle.card.specs.Refusals.{number_of};

pub use refusal::Refusal;

// The numbers of the drawing: the only places in code where they stand.
pub const MARK: u32 = 1;

pub const HEADER_WORDS: usize = 8;

pub const NODE_WORDS: usize = 24;

pub const LEAF: u32 = 1;

pub const INTERNAL: u32 = 2;

pub const TAGGED: u32 = 3;

// How many keys a leaf has room for, and how many children an internal node; where keys begin, the values or children beside them,
// and the children after the first; and the last word, which is 0.
pub const SLOTS: usize = 11;

pub const KEYS: usize = 1;

pub const VALUES: usize = 12;

pub const SECOND_CHILD: usize = 13;

pub const LAST_WORD: usize = 23;

// What two siblings hold at most together, and a full node with one more: "the 12 pairs go 6 and 6".
pub const MOST_TOGETHER: usize = SLOTS + 1;

// New nodes are laid out one after the other, "left, right, then above", and then the link: "So a change is at most 73 stores."
pub const TWO_NODES: usize = 2 * NODE_WORDS;

pub const THREE_NODES: usize = 3 * NODE_WORDS;

pub const PLAN_SIZE: usize = THREE_NODES + 1;

// "With N nodes (4 to 600)", document 02, W-210: "cards of up to 2,600 nodes": the only places in code where the two limits stand.
pub const LEAST_NODES: usize = 4;

pub const GREATEST_NODES: usize = 2600;

// The programs are made for cards of up to 600 nodes, and lend rows of that many words.
pub const PROGRAM_NODES: usize = 600;

pub const PROGRAM_WORDS: usize = HEADER_WORDS + NODE_WORDS * PROGRAM_NODES;

// "The free nodes are one bit each": how many words of 32 bits there are for them, enough for the greatest N.
pub const FREE_WORDS: usize = 82;

// "more than 10 internal nodes", since document 02, W-210, 12: the only place in code where the depth limit stands.
pub const DEPTH_LIMIT: usize = 12;

// "4: number of the root node"
pub const ROOT_PLACE: usize = 4;

// Document 02, W-207: a card with mark 1 has one line.
pub const FIRST_LINE: u32 = 1;

pub const SECOND_LINE: u32 = 2;

// "word 5 is the second line's root".
pub const SECOND_ROOT: usize = 5;

// "A second form of card carries mark 2".
pub const SECOND_MARK: u32 = 2;

// "root node 1": the root that formatting makes.
pub const FORMATTED_ROOT: u32 = 1;

// "Keys are 1 to 4,294,967,295": where the range of all keys begins and ends.
pub const LOWEST_KEY: u32 = 1;

pub const KEY_LIMIT: u64 = 4294967296;

// The calls are made for cards up to some greatest N; one that is too great stands for the greatest that there is.
pub fn limit(greatest: usize) -> usize
    ensures { (result ≡ limited greatest) × (result ≤ greatest_nodes) }
{
    greatest.min(GREATEST_NODES)
}

// How many nodes a card of so many words has, where there is a card of that length.
#[tactic(auto, unfolding(crate::specs::Header::nodes_of_length))]
pub fn nodes_of(length: usize, greatest: usize) -> Option<usize>
    ensures value { unwrap_or result 0 ≡ nodes_of_length greatest length }
    ensures sized { (n : ℕ) → result ≡ Some n → Sized greatest length n }
{
    if length < HEADER_WORDS + NODE_WORDS * LEAST_NODES {
        return None;
    }
    if HEADER_WORDS + NODE_WORDS * limit(greatest) < length {
        return None;
    }
    if (length - HEADER_WORDS) % NODE_WORDS == 0 {
        Some((length - HEADER_WORDS) / NODE_WORDS)
    } else {
        None
    }
}

// Whether a card of so many words has n nodes: "8 + 24 × N words, N 4 to 600". N is known, so nothing is divided.
pub fn is_sized(length: usize, n: usize, greatest: usize) -> bool
    ensures { (result ≡ true → Sized greatest length n) × (result ≡ false → Sized greatest length n → ⊥) }
{
    LEAST_NODES <= n && n <= limit(greatest) && length == HEADER_WORDS + NODE_WORDS * n
}

// Words 0 to 3 and 5 to 7 of a card with n nodes are as they must be, or refused with 2 or 3.
#[tactic(auto, unfolding(crate::specs::Header::header_refusal))]
pub fn check_header(card: &[u32], n: usize) -> Result<(), Refusal>
    requires { 8 ≤ length card.now }
    ensures { number_of result ≡ header_refusal card.now n }
{
    if card[0] != MARK {
        return Err(Refusal::WrongMark);
    }
    if card[1] as usize != n {
        return Err(Refusal::WrongHeader);
    }
    if card[2] != HEADER_WORDS as u32 {
        return Err(Refusal::WrongHeader);
    }
    if card[3] != NODE_WORDS as u32 {
        return Err(Refusal::WrongHeader);
    }
    if card[5] != 0 {
        return Err(Refusal::WrongHeader);
    }
    if card[6] != 0 {
        return Err(Refusal::WrongHeader);
    }
    if card[7] != 0 {
        return Err(Refusal::WrongHeader);
    }
    Ok(())
}

// How many nodes a card has that is refused with none of 1, 2 and 3, in this order.
pub fn checked_nodes(card: &[u32], greatest: usize) -> Result<usize, Refusal>
    ensures refused { number_of result ≡ card_refusal greatest card.now }
    ensures sized { (n : ℕ) → result ≡ Ok n → Sized greatest (length card.now) n }
{
    let n = nodes_of(card.len(), greatest).ok_or(Refusal::WrongLength)?;
    check_header(card, n)?;
    Ok(n)
}

// Whether a card has a line of this number: one with mark 1 has line 1, one with mark 2 has lines 1 and 2 (document 02, W-207).
#[tactic(auto, unfolding(crate::specs::Lines::has_line))]
pub fn has_line(card: &[u32], line: u32) -> bool
    requires { 8 ≤ length card.now }
    ensures { result ≡ has_line card.now line }
{
    line == FIRST_LINE || line == SECOND_LINE && card[0] == SECOND_MARK
}

// The number of a line's root.
pub fn root_of(card: &[u32], line: u32) -> usize
    requires { (8 ≤ length card.now) × IsLine line }
    ensures { result ≡ get_or card.now (root_of line) 0 }
{
    if line == SECOND_LINE {
        return card[SECOND_ROOT] as usize;
    }
    card[ROOT_PLACE] as usize
}

// The words of the two roots, as places that a step tells.
const ROOT_LINK: u32 = ROOT_PLACE as u32;

const SECOND_LINK: u32 = SECOND_ROOT as u32;

// Where a store of a line's own table stands on the card: the link to the root in the line's word for it, all others where they are.
#[tactic(auto, unfolding(crate::specs::Lines::on_line))]
pub fn on_line(line: u32, place: u32) -> u32
    requires { IsLine line }
    ensures { result ≡ on_line line place }
{
    if line != SECOND_LINE {
        return place;
    }
    if place == ROOT_LINK {
        return SECOND_LINK;
    }
    place
}

// Node m: the 24-word part of the card that starts at word 8 + 24 × (m − 1).
#[tactic(auto, unfolding(crate::specs::Layout::node_at))]
pub fn node_at(card: &[u32], m: usize) -> &[u32]
    requires { (1 ≤ m) × (m ≤ greatest_nodes) × (8 + 24 * m ≤ length card.now) }
    ensures { result.now ≡ node_at card.now m }
{
    let at = HEADER_WORDS + NODE_WORDS * (m - 1);
    &card[at..at + NODE_WORDS]
}

// How many children an internal node has: those before the first 0.
pub fn child_count(node: &[u32]) -> usize
    requires { length node.now ≡ 24 }
    ensures { result ≡ length (children node.now) }
{
    node[VALUES..LAST_WORD]
        .iter()
        .position(|word| *word == 0)
        .unwrap_or(SLOTS)
}

// How many pairs a leaf holds. A sum, which takes 24 instructions; `filter(..).count()`, which is not unrolled, takes 114.
pub fn pair_count(node: &[u32]) -> usize
    requires { length node.now ≡ 24 }
    ensures { result ≡ length (leaf_pairs node.now) }
{
    node[KEYS..VALUES]
        .iter()
        .map(|key| usize::from(*key != 0))
        .sum()
}
