// Garbage: words that are no table, cards of any length, and states that no call handed back. Every call returns. Prints how many
// calls there were.

#![tactic(auto)]

use state::block::{
    COUNT, CUT, DOING, FIRST, FREE, IDLE, LAST, MADE, NODES, PLACES, SECOND, THIRD, VALUES,
};
use table::STATE_WORDS;
use test_calls::random::Random;
use test_calls::{Block, Words, first_words};

// What is kept from call to call.
#[derive(Drop)]
struct Garbage {
    random: Random,
    calls: u32,
}

impl Garbage {
    fn any_number(&mut self) -> u32 {
        if self.random.below(4) == 0 {
            self.random.word()
        } else {
            self.random.below(80)
        }
    }

    // Fills a card with words of any size, or with words that are likely to be node numbers.
    fn fill(&mut self, card: &mut [u32], n: u32) {
        let kind = self.random.below(4);
        for word in card.iter_mut().rev() {
            *word = if kind == 0 {
                self.random.word()
            } else {
                self.random.below(n.saturating_add(2))
            };
        }
    }

    // The header of a card of N nodes, with a root that is a node, and kinds that are kinds.
    fn head(&mut self, card: &mut [u32], n: u32) {
        let root = self.random.below(n) + 1;
        for (word, value) in card.iter_mut().zip([1, n, 8, 24, root, 0, 0, 0]) {
            *word = value;
        }
        for m in (0..n).rev() {
            let kind = self.random.below(3) + 1;
            if let Some(word) = card.get_mut(8 + 24 * m as usize) {
                *word = kind;
            }
        }
    }

    fn any_doing(&mut self, state: &mut Block) {
        state[DOING] = self.random.below(6);
        state[FIRST] = self.any_number();
        state[SECOND] = self.random.word();
        state[THIRD] = self.random.below(2);
    }

    fn any_plan(&mut self, state: &mut Block) {
        let place = self.any_number();
        let value = self.random.word();
        state[COUNT] = self.any_number();
        state[PLACES..VALUES].fill(place);
        state[VALUES..].fill(value);
        let i = self.random.below(73) as usize;
        if let Some(word) = state[PLACES..VALUES].get_mut(i) {
            *word = value;
        }
    }

    fn any_state(&mut self, nodes: u32) -> Block {
        let mut state = [0; STATE_WORDS];
        self.any_doing(&mut state);
        self.any_plan(&mut state);
        let bits = self.random.word();
        state[FREE..PLACES].fill(bits);
        state[LAST] = self.any_number();
        state[MADE] = self.any_number();
        let cut = self.any_number();
        state[CUT..FREE].fill(cut);
        state[NODES] = nodes;
        if self.random.below(8) == 0 {
            state[NODES] = self.any_number();
        }
        state
    }

    fn count(&mut self, calls: u32) {
        self.calls = self.calls.saturating_add(calls);
    }

    // Some steps with the state that each hands back.
    fn walk(&mut self, card: &mut [u32], state: &mut Block) {
        test_calls::make_steps(card, state, 80);
        self.count(80);
    }

    // A call that handed back a state is counted, and steps are made from there.
    fn walk_from(&mut self, card: &mut [u32], state: &mut Block) {
        self.count(1);
        self.walk(card, state);
    }

    fn find_on(&mut self, card: &[u32], key: u32) {
        let _ = table::find(card, key);
        self.count(1);
    }

    fn open_on(&mut self, card: &mut [u32], state: &mut Block) {
        let _ = table::open(card, state);
        self.walk_from(card, state);
    }

    fn insert_on(&mut self, card: &mut [u32], state: &mut Block, key: u32) {
        let _ = table::start_insert(card, state, key, 7);
        self.walk_from(card, state);
    }

    fn delete_on(&mut self, card: &mut [u32], state: &mut Block, key: u32) {
        let _ = table::start_delete(card, state, key);
        self.walk_from(card, state);
    }

    fn format_on(&mut self, card: &mut [u32], state: &mut Block) {
        let _ = table::start_format(card, state);
        self.walk_from(card, state);
    }

    fn updates_on(&mut self, card: &mut [u32], nodes: u32, key: u32) {
        let mut state = self.any_state(nodes);
        let mut idle = state;
        idle[NODES] = nodes;
        idle[DOING] = IDLE;
        let mut again = idle;
        self.insert_on(card, &mut state, key);
        self.insert_on(card, &mut idle, key);
        self.delete_on(card, &mut again, key);
    }

    // Every call, on a card and states that are garbage.
    fn calls_on(&mut self, card: &mut [u32], nodes: u32) {
        let key = self.any_number();
        self.find_on(card, key);
        let mut state = self.any_state(nodes);
        self.walk(card, &mut state);
        self.open_on(card, &mut state);
        self.updates_on(card, nodes, key);
        self.format_on(card, &mut state);
    }

    // How many nodes a card is to have.
    fn any_size(&mut self) -> u32 {
        let n = self.random.below(16) + 1;
        if self.random.below(50) == 0 { 600 } else { n }
    }

    // How many words a card of n nodes is given.
    fn any_length(&mut self, n: u32) -> usize {
        if self.random.below(16) == 0 {
            self.random.below(600) as usize
        } else {
            8 + 24 * n as usize
        }
    }

    fn turn(&mut self, words: &mut Words) {
        let n = self.any_size();
        let length = self.any_length(n);
        let card = first_words(words, length);
        self.fill(card, n);
        if self.random.below(8) != 0 {
            self.head(card, n);
        }
        self.calls_on(card, n);
    }
}

fn main(rt: HostRuntime) {
    let mut words = [0; test_calls::MOST];
    let mut garbage = Garbage {
        random: Random::new(1994),
        calls: 0,
    };
    for _ in 0..4000 {
        garbage.turn(&mut words);
    }
    // where it can't be written the program ends all the same
    let _ = println!(rt; "calls {}", garbage.calls);
}
