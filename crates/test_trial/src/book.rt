// The book: the pairs that the table has to hold, and the update in hand with its count of steps. It is a row by the numbers of the
// keys and no map, since a map takes the heap, which may be short.
use crate::lists::MOST_KEYS;

// A value, or none, for each number of a key; number 0 is no key's.
type Values = [Option<u32>; MOST_KEYS + 1];

// An insert has a value.
#[derive(Clone, Copy)]
pub enum Kind {
    Insert(u32),
    Delete,
}

// An update that was started: its steps, whether its leaf was full, whether it is entered, and the value of its key as it began.
#[derive(Clone, Copy)]
pub struct Hand {
    pub kind: Kind,
    // its key, by the number in the list's range
    pub number: u32,
    pub taken: u32,
    pub is_leaf_full: bool,
    pub is_entered: bool,
    pub held: Option<u32>,
}

impl Hand {
    // "a delete's first, an insert's second, or an insert's 73rd where its leaf was full at the start"
    fn deciding_step(&self) -> u32 {
        match self.kind {
            Kind::Delete => 1,
            Kind::Insert(_) if self.is_leaf_full => 73,
            Kind::Insert(_) => 2,
        }
    }
}

#[derive(Drop)]
pub struct Book {
    values: Values,
    pub hand: Option<Hand>,
}

impl Book {
    pub fn new() -> Self {
        Book {
            values: [None; MOST_KEYS + 1],
            hand: None,
        }
    }

    pub fn clear(&mut self) {
        self.values.fill(None);
        self.hand = None;
    }

    // The value of a key, by its number.
    pub fn value(&self, number: u32) -> Option<u32> {
        self.values.get(number as usize).copied().flatten()
    }

    // "Entered, an insert adds its pair unless the key is there; a delete takes its key's pair out."
    fn enter(&mut self, number: u32, kind: Kind) {
        if let Some(held) = self.values.get_mut(number as usize) {
            *held = match kind {
                Kind::Insert(value) => held.or(Some(value)),
                Kind::Delete => None,
            };
        }
    }

    // "Its steps that are not refused count one each. The deciding step enters it .. Its final answer enters it if not yet entered,
    // and empties the hand."
    pub fn step(&mut self, is_final: bool) {
        let Some(mut hand) = self.hand else {
            return;
        };
        hand.taken = hand.taken.saturating_add(1);
        if !hand.is_entered && (is_final || hand.taken == hand.deciding_step()) {
            self.enter(hand.number, hand.kind);
            hand.is_entered = true;
        }
        self.hand = if is_final { None } else { Some(hand) };
    }
}
