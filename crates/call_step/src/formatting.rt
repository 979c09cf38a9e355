// The steps of formatting: "0 in word 0, then every word from 1 to the last in rising order .., then 1 in word 0".
ghost use Rattle.std.specs.Prelude.{◌≡◌, suc, ◌+◌, ◌*◌, ◌≤◌, ◌<◌, length, set};
ghost use Rattle.card.specs.Layout.{greatest_nodes};
ghost use Rattle.card.specs.Header.{Sized};
ghost use Rattle.state.specs.Block.{state_words, block_word, memory_in};
ghost use Rattle.state.specs.Steps.{formatted_word, format_store, step_format};
ghost use Rattle.state.specs.Answer.{given};
ghost use Rattle.state.specs.declared.Answer.TheVariants.{Stored};
ghost use Rattle.call_step.specs.Clauses.{StepMade};

use crate::playing::finish;
use state::Answer;
use state::block::{FIRST, NODES, wide};

// What words 2 and 3 of a formatted card are.
const HEADER: u32 = card::HEADER_WORDS as u32;

const NODE: u32 = card::NODE_WORDS as u32;

// Word i of a formatted card with n nodes, but the mark: "root node 1, an empty leaf, all else 0".
#[tactic(auto, unfolding(state::specs::Steps::formatted_word))]
fn formatted_word(n: usize, i: usize) -> u32
    requires { n ≤ greatest_nodes }
    ensures { result ≡ formatted_word n i }
{
    match i {
        1 => n as u32,
        2 => HEADER,
        3 => NODE,
        card::ROOT_PLACE => card::FORMATTED_ROOT,
        card::HEADER_WORDS => card::LEAF,
        _ => 0,
    }
}

// A store of formatting in this place, which is told.
fn store_format(card: &mut [u32], state: &mut [u32], place: u32, word: u32) -> Answer
    requires { (length state.old ≡ state_words) × (place < length card.old)
        × (block_word state.old 3 ≤ length card.old) × (length card.old ≤ 8 + 24 * greatest_nodes) }
    ensures { (result ≡ Stored place) × (card.new ≡ set card.old place word)
        × (state.new ≡ set state.old 3 (suc (block_word state.old 3))) }
{
    card[wide(place)] = word;
    state[FIRST] = state[FIRST] + 1;
    Answer::Stored(place)
}

// The store after so many, or the end: "so 8 + 24 × N + 1 stores, then ready".
#[tactic(auto, using(crate::proofs::ContractLaws::formats_end))]
pub fn step_format(card: &mut [u32], state: &mut [u32]) -> Answer
    requires { (length state.old ≡ state_words) × (block_word state.old 2 ≡ 1) × Sized greatest_nodes (length card.old) (block_word state.old 0) }
    ensures { StepMade card.old state.old card.new state.new (given result)
        (step_format card.old (memory_in state.old) (block_word state.old 3)
        (format_store (block_word state.old 0) (length card.old) (block_word state.old 3))) }
{
    let count = state[FIRST];
    let made = wide(count);
    if made == 0 {
        return store_format(card, state, 0, 0);
    }
    if made < card.len() {
        let word = formatted_word(wide(state[NODES]), made);
        return store_format(card, state, count, word);
    }
    if made == card.len() {
        return store_format(card, state, 0, card::MARK);
    }
    finish(state);
    Answer::Ready
}
