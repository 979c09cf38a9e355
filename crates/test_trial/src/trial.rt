// What is kept from call to call, beside the card and its state.
use crate::book::Book;
use crate::lists::List;
use test_calls::random::Random;

#[derive(Default, Drop)]
pub struct Counts {
    pub calls: u64,
    pub steps: u64,
    pub refused: u64,
    pub cuts: u64,
    pub wrong: u64,
}

// One more in a count.
pub fn count(n: &mut u64) {
    *n = n.saturating_add(1);
}

#[derive(Drop)]
pub struct Trial {
    pub list: List,
    pub book: Book,
    pub random: Random,
    pub counts: Counts,
}

impl Trial {
    pub fn new() -> Self {
        Trial {
            list: List::default(),
            book: Book::new(),
            random: Random::new(1994),
            counts: Counts::default(),
        }
    }

    pub fn wrong_if(&mut self, is_wrong: bool) {
        if is_wrong {
            count(&mut self.counts.wrong);
        }
    }

    // The number of a key of the range.
    pub fn any_number(&mut self) -> u32 {
        self.random.below(self.list.range) + 1
    }

    // A key of the range.
    pub fn any_key(&mut self) -> u32 {
        let number = self.any_number();
        self.list.key(number)
    }
}
