// Starts and steps of updates, each answer compared with the book, and calls that are refused.
use crate::book::{Hand, Kind};
use crate::leaf;
use crate::trial::{Trial, count};
use table::{Answer, Begun, Refusal};
use test_calls::Block;

// Whether a step's answer is not the one due: a store, of which there are at most 657, or the final answer by the book as the update
// began.
fn is_wrong(hand: &Hand, answer: Result<Answer, Refusal>) -> bool {
    match answer {
        Ok(Answer::Stored(_)) => hand.taken > 656,
        Ok(Answer::Absent) => hand.held.is_some(),
        Ok(Answer::Value(value)) => hand.held != Some(value),
        Ok(Answer::Ready) | Err(_) => true,
    }
}

// Whether a call was refused with this number.
pub fn is_refused<A: Drop>(answer: Result<A, Refusal>, number: u32) -> bool {
    matches!(answer, Err(refusal) if refusal.number() == number)
}

impl Trial {
    // A call that has to be refused, and whether it was, as it is due.
    fn expect(&mut self, is_refused: bool) {
        count(&mut self.counts.calls);
        count(&mut self.counts.refused);
        self.wrong_if(!is_refused);
    }

    fn expect_of_find(&mut self, due: u32, card: &[u32], key: u32) {
        self.expect(is_refused(table::find(card, key), due));
    }

    fn expect_of_starts(&mut self, due: u32, card: &[u32], state: &mut Block, key: u32) {
        self.expect(is_refused(table::start_delete(card, state, key), due));
        self.expect(is_refused(table::start_insert(card, state, key, 1), due));
    }

    fn expect_of_step(&mut self, due: u32, card: &mut [u32], state: &mut Block) {
        self.expect(is_refused(table::step(card, state), due));
    }

    // Key 0 is refused 6, a start that is not idle 7, an idle step 10.
    pub fn refused_call(&mut self, card: &mut [u32], state: &mut Block, which: u32) {
        let is_idle = self.book.hand.is_none();
        let key = self.any_key();
        match (which, is_idle) {
            (0, _) => self.expect_of_find(6, card, 0),
            (1, true) => self.expect_of_step(10, card, state),
            (_, true) => self.expect_of_starts(6, card, state, 0),
            (_, false) => self.expect_of_starts(7, card, state, key),
        }
    }

    // A card that is a word too short is refused 1.
    pub fn short_card(&mut self, card: &mut [u32], state: &mut Block, which: u32) {
        let key = self.any_key();
        let n = card.len().saturating_sub(1);
        let short = &mut card[..n];
        match which {
            3 => self.expect_of_find(1, short, key),
            4 => self.expect_of_starts(1, short, state, key),
            _ => self.expect_of_step(1, short, state),
        }
    }

    // An insert that was started, or refused for want of room: refusal 8, key absent, leaf full. With fewer than 6 nodes there are
    // never 5 free for one that splits.
    fn insert_begun(&mut self, hand: Hand, begun: Result<Begun, Refusal>) {
        let is_split = hand.held.is_none() && hand.is_leaf_full;
        match begun {
            Ok(Begun::Started) => {
                self.book.hand = Some(hand);
                self.wrong_if(self.list.nodes < 6 && is_split);
            }
            Ok(Begun::Idle) => self.wrong_if(true),
            Err(refusal) => {
                count(&mut self.counts.refused);
                self.wrong_if(refusal.number() != 8 || !is_split);
            }
        }
    }

    fn delete_begun(&mut self, hand: Hand, begun: Result<Begun, Refusal>) {
        if begun == Ok(Begun::Started) {
            self.book.hand = Some(hand);
        } else {
            self.wrong_if(true);
        }
    }

    // Starts an update of a key, by its number, and the book's side of it.
    fn start_update(&mut self, card: &[u32], state: &mut Block, number: u32, kind: Kind) {
        let key = self.list.key(number);
        let hand = Hand {
            kind,
            number,
            taken: 0,
            is_leaf_full: leaf::is_full(card, key),
            is_entered: false,
            held: self.book.value(number),
        };
        match kind {
            Kind::Insert(value) => {
                let begun = table::start_insert(card, state, key, value);
                self.insert_begun(hand, begun);
            }
            Kind::Delete => {
                let begun = table::start_delete(card, state, key);
                self.delete_begun(hand, begun);
            }
        }
    }

    // Of 16 starts so many are inserts: for some time more of the one, then more of the other.
    fn inserts_of_sixteen(&self) -> u32 {
        if self.counts.steps / 4096 % 2 == 1 {
            4
        } else {
            12
        }
    }

    // Starts an insert or a delete of a key of the range.
    pub fn start(&mut self, card: &[u32], state: &mut Block) {
        let number = self.any_number();
        let value = self.random.word();
        count(&mut self.counts.calls);
        let kind = if self.random.below(16) < self.inserts_of_sixteen() {
            Kind::Insert(value)
        } else {
            Kind::Delete
        };
        self.start_update(card, state, number, kind);
    }

    // A step of the update in hand, and the book's side of it.
    pub fn step(&mut self, card: &mut [u32], state: &mut Block, hand: Hand) {
        count(&mut self.counts.calls);
        count(&mut self.counts.steps);
        let answer = table::step(card, state);
        self.wrong_if(is_wrong(&hand, answer));
        self.book.step(!matches!(answer, Ok(Answer::Stored(_))));
    }
}
