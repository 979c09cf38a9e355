// Up to twelve words in place: "the 12 children". A change gathers the keys and the children of its new nodes in such rows.
ghost use Rattle.std.specs.Prelude.{◌≡◌, List, [], ◌∷◌, ℕ, ◌++◌, ◌+◌, ◌-◌, ◌≤◌, ◌<◌, length, take, drop};

use card::MOST_TOGETHER;
use std::marker::Model;

// What a row holds is its first `count` words; clauses see these alone.
#[derive(Drop)]
pub struct Row {
    words: [u32; MOST_TOGETHER],
    count: usize,
}

impl Model for Row {
    ghost Value = { List ℕ };

    ghost view = { λ r. take r.count r.words };

    ghost invariant = { λ r. r.count ≤ 12 };
}

impl Row {
    pub fn new() -> Self
        ensures { result ≡ [] }
    {
        Row {
            words: [0; MOST_TOGETHER],
            count: 0,
        }
    }

    // The first `count` of twelve words.
    pub fn first_of(words: [u32; MOST_TOGETHER], count: usize) -> Self
        requires { count ≤ 12 }
        ensures { result ≡ take count words }
    {
        Row { words, count }
    }

    pub fn as_slice(&self) -> &[u32]
        ensures { result.now ≡ self.now }
    {
        &self.words[..self.count]
    }

    // The words of a part after those that the row holds.
    pub fn append(&mut self, part: &[u32])
        requires { length self.old + length part.now ≤ 12 }
        ensures { self.new ≡ self.old ++ part.now }
    {
        let end = self.count + part.len();
        self.words[self.count..end].copy_from_slice(part);
        self.count = end;
    }

    // One word more.
    pub fn push(&mut self, word: u32)
        requires { length self.old < 12 }
        ensures { self.new ≡ self.old ++ word ∷ [] }
    {
        self.words[self.count] = word;
        self.count += 1;
    }

    // A part, with other words in the place of those from `from` to before `to`.
    pub fn replaced(part: &[u32], from: usize, to: usize, others: &[u32]) -> Self
        requires { (from ≤ to) × (to ≤ length part.now) × (from + length others.now + (length part.now - to) ≤ 12) }
        ensures { result ≡ take from part.now ++ (others.now ++ drop to part.now) }
    {
        let mut row = Row::new();
        row.append(&part[..from]);
        row.append(others);
        row.append(&part[to..]);
        row
    }
}
