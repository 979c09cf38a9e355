// The trace in hand, and the hash of its results. The numbers that tell what a result is are those of tools/make_replay.py.
use table::{Begun, Refusal};

#[derive(Clone, Copy, Default)]
pub struct Trace {
    pub number: u32,
    // the words of its card
    pub length: usize,
    pub stores: u64,
    pub hash: u32,
}

impl Trace {
    // One number more in the hash: h * 31 + x below 2 to the 32nd.
    pub fn feed(&mut self, x: u64) {
        let low = (x & 0xffffffff) as u32;
        self.hash = self.hash.wrapping_mul(31).wrapping_add(low);
    }

    pub fn feed_all(&mut self, numbers: &[u64]) {
        for x in numbers {
            self.feed(*x);
        }
    }

    pub fn feed_refusal(&mut self, refusal: Refusal) {
        self.feed_all(&[1, u64::from(refusal.number())]);
    }

    // What a start of an update or of formatting answered.
    pub fn feed_start(&mut self, begun: Result<Begun, Refusal>) {
        match begun {
            Ok(Begun::Idle) => self.feed(3),
            Ok(Begun::Started) => self.feed(2),
            Err(refusal) => self.feed_refusal(refusal),
        }
    }

    // What opening answered, with the number of free nodes.
    pub fn feed_opening(&mut self, begun: Result<Begun, Refusal>, free: usize) {
        match begun {
            Ok(Begun::Idle) => self.feed_all(&[3, free as u64]),
            Ok(Begun::Started) => self.feed_all(&[4, free as u64]),
            Err(refusal) => self.feed_refusal(refusal),
        }
    }

    pub fn feed_found(&mut self, found: Option<u32>, depth: usize) {
        match found {
            Some(value) => self.feed_all(&[5, u64::from(value), depth as u64]),
            None => self.feed_all(&[6, depth as u64]),
        }
    }

    // A store: the place and the word.
    pub fn feed_store(&mut self, place: u32, word: u32) {
        self.stores = self.stores.saturating_add(1);
        self.feed_all(&[10, u64::from(place), u64::from(word)]);
    }

    // What a read or a write answered, and the CRC of the lent slice afterwards. No trace asks for more than there is; refusal 0,
    // which document 01 does not have, would show it.
    pub fn feed_lent(&mut self, tag: u64, answer: Option<Result<usize, Refusal>>, crc: u32) {
        match answer {
            Some(Ok(n)) => self.feed_all(&[tag, n as u64]),
            Some(Err(refusal)) => self.feed_refusal(refusal),
            None => self.feed_all(&[1, 0]),
        }
        self.feed(u64::from(crc));
    }
}
