// Cuts: the card is opened anew and repaired, and what it holds is compared with the book.
use crate::trial::{Trial, count};
use table::{Answer, Begun};
use test_calls::Block;

impl Trial {
    // A find of a key, by its number, compared with the book.
    fn compare(&mut self, card: &[u32], number: u32) {
        count(&mut self.counts.calls);
        let key = self.list.key(number);
        let held = self.book.value(number);
        self.wrong_if(table::find(card, key) != Ok(held));
    }

    pub fn compare_one(&mut self, card: &[u32]) {
        let number = self.any_number();
        self.compare(card, number);
    }

    // Every key of the range, compared with the book.
    fn compare_all(&mut self, card: &[u32]) {
        let list = self.list;
        for number in (1..=list.range).rev() {
            self.compare(card, number);
        }
    }

    // Opens a card that a cut left; whether there is a repair.
    fn open(&mut self, card: &[u32], state: &mut Block) -> bool {
        count(&mut self.counts.cuts);
        count(&mut self.counts.calls);
        let begun = table::open(card, state);
        self.wrong_if(begun.is_err());
        begun == Ok(Begun::Started)
    }

    // Makes a step of a repair or of formatting, which store words until one gives "ready"; whether they go on.
    pub fn step_until_ready(&mut self, card: &mut [u32], state: &mut Block) -> bool {
        count(&mut self.counts.steps);
        let answer = table::step(card, state);
        self.wrong_if(!matches!(answer, Ok(Answer::Stored(_) | Answer::Ready)));
        answer != Ok(Answer::Ready)
    }

    // A step of a repair, or now and then another cut; whether there is more of the repair.
    fn repair_step(&mut self, card: &mut [u32], state: &mut Block) -> bool {
        if self.random.below(100) == 0 {
            return self.open(card, state);
        }
        if self.random.below(16) == 0 {
            self.compare_one(card);
        }
        self.step_until_ready(card, state)
    }

    // The table is balanced: opening hands back an idle state.
    fn expect_idle(&mut self, card: &[u32]) {
        count(&mut self.counts.calls);
        self.wrong_if(test_calls::opening_answer(card) != Ok(Begun::Idle));
    }

    // Opens the card, and makes the repair after a cut, which ends.
    fn repair(&mut self, card: &mut [u32], state: &mut Block) {
        let mut goes_on = self.open(card, state);
        for _ in 0..100000 {
            if !goes_on {
                return;
            }
            goes_on = self.repair_step(card, state);
        }
        self.wrong_if(true);
    }

    // A cut: opening does not refuse, the repair ends, the map is the book's, and the table is balanced.
    pub fn cut(&mut self, card: &mut [u32], state: &mut Block) {
        self.repair(card, state);
        self.compare_all(card);
        self.expect_idle(card);
    }
}
