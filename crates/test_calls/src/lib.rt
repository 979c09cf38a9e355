// What the test programs share: a row of words that holds any card, the block of a state, what they do to a card besides the table's
// own calls, and random numbers. A card is lent as a slice: the first words of the row.

#![tactic(auto)]

pub mod random;

use table::{Begun, Refusal, STATE_WORDS};

// As many words as a card of 601 nodes would have, which is one too many.
pub const MOST: usize = card::PROGRAM_WORDS + card::NODE_WORDS;

pub type Words = [u32; MOST];

// The block of a state.
pub type Block = [u32; STATE_WORDS];

// The card that the first n words are, or all of them where there are fewer.
pub fn first_words(words: &mut Words, n: usize) -> &mut [u32] {
    &mut words[..n.min(MOST)]
}

// A copy of a card, in a row of its own.
pub fn copy_of<'a>(card: &[u32], row: &'a mut Words) -> &'a mut [u32] {
    let n = card.len().min(MOST);
    let copy = &mut row[..n];
    copy.copy_from_slice(&card[..n]);
    copy
}

// What opening answers, where the state is not needed.
pub fn opening_answer(card: &[u32]) -> Result<Begun, Refusal> {
    table::open(card, &mut [0; STATE_WORDS])
}

// So many steps, whatever each answers. A step after the final answer is refused and changes nothing.
pub fn make_steps(card: &mut [u32], state: &mut Block, count: u32) {
    for _ in 0..count {
        let _ = table::step(card, state);
    }
}

// The state is lost: the block becomes the idle state for N = 0, which a refused opening hands back.
pub fn lose(state: &mut Block) {
    let _ = table::open(&[0], state);
}
