// Random calls on cards of several sizes, against the book of document 01 ("The book and the cut"): answers, refusals and finds
// between steps; then cuts after steps, with repairs that are cut again. Prints one line of counts.

#![tactic(auto)]

mod book;
mod cuts;
mod leaf;
mod lists;
mod trial;
mod update_lists;

use lists::{LISTS, List};
use table::{Begun, STATE_WORDS};
use test_calls::{Block, Words, copy_of, first_words};
use trial::{Trial, count};
use update_lists::is_refused;

impl Trial {
    // A step of formatting; whether they go on. The card is not formatted until the last store, and opening says so.
    fn format_step(&mut self, card: &mut [u32], state: &mut Block) -> bool {
        let goes_on = self.step_until_ready(card, state);
        if matches!(card, [0, ..]) {
            self.wrong_if(!is_refused(test_calls::opening_answer(card), 2));
        }
        goes_on
    }

    // Starts to format the card.
    fn start_format(&mut self, card: &[u32], state: &mut Block) {
        count(&mut self.counts.calls);
        let begun = table::start_format(card, state);
        self.wrong_if(begun != Ok(Begun::Started));
    }

    // Formats a card: "8 + 24 × N + 1 stores, then ready".
    fn format(&mut self, card: &mut [u32], state: &mut Block) {
        self.start_format(card, state);
        for _ in 0..=card.len() {
            let goes_on = self.format_step(card, state);
            self.wrong_if(!goes_on);
        }
        let goes_on = self.format_step(card, state);
        self.wrong_if(goes_on);
    }

    // A cut of the card as it stands, on a copy.
    fn cut_copy(&mut self, card: &[u32]) {
        let mut words: Words = [0; test_calls::MOST];
        let mut state: Block = [0; STATE_WORDS];
        self.cut(copy_of(card, &mut words), &mut state);
    }

    // Now and then a cut: on a copy, after which the update goes on, or on the card itself.
    fn cut_at_times(&mut self, card: &mut [u32], state: &mut Block) {
        if self.random.below(self.list.chance) == 0 {
            self.cut_copy(card);
        }
        if self.random.below(500) == 0 {
            self.book.hand = None;
            self.cut(card, state);
        }
    }

    // A call that is not refused: a start where there is no update in hand, else a step of it.
    fn start_or_step(&mut self, card: &mut [u32], state: &mut Block) {
        match self.book.hand {
            None => self.start(card, state),
            Some(hand) => {
                self.step(card, state, hand);
                self.cut_at_times(card, state);
            }
        }
    }

    // One call of the list, or a cut.
    fn turn(&mut self, card: &mut [u32], state: &mut Block) {
        let which = self.random.below(64);
        match which {
            0..3 => self.refused_call(card, state, which),
            3..6 => self.short_card(card, state, which),
            6..9 => self.compare_one(card),
            _ => self.start_or_step(card, state),
        }
    }

    // A list of calls on a card that is formatted for it.
    fn try_list(&mut self, card: &mut [u32], list: List) {
        self.list = list;
        self.book.clear();
        let mut state: Block = [0; STATE_WORDS];
        self.format(card, &mut state);
        for _ in 0..list.turns {
            self.turn(card, &mut state);
        }
        self.cut(card, &mut state);
    }
}

fn main(rt: HostRuntime) {
    let mut words: Words = [0; test_calls::MOST];
    let mut trial = Trial::new();
    for list in LISTS {
        trial.try_list(first_words(&mut words, list.length()), list);
    }
    let counts = &trial.counts;
    // where it can't be written the program ends all the same
    let _ = println!(rt;
        "calls {} steps {} refused {} cuts {} wrong {}",
        counts.calls, counts.steps, counts.refused, counts.cuts, counts.wrong
    );
}
