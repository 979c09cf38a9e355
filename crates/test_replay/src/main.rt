// Replays traces of document 01: standard input is a stream of calls that tools/make_replay.py wrote from them, and for each
// trace this prints its number and a hash of all results.

#![tactic(auto)]

mod crc;
mod dumps;
mod stream;
mod trace;

use dumps::Dump;
use state::block::{FREE, PLACES};
use stream::{Stream, next_place};
use table::{Answer, STATE_WORDS};
use test_calls::{Block, Words, copy_of, first_words};
use trace::Trace;

// What is kept from one operation to the next, beside the card.
#[derive(Drop)]
struct Replay {
    stream: Stream,
    trace: Trace,
    dump: Dump,
    state: Block,
}

// How many internal nodes a find passes; 0 where it is refused, and where a card is asked for that is longer than the row.
fn depth_of_find(card: &[u32], length: usize, key: u32) -> usize {
    match table::find_with_depth(card, key) {
        Ok(lookup) if length <= card.len() => lookup.depth,
        Ok(_) | Err(_) => 0,
    }
}

impl Replay {
    fn new() -> Self {
        Replay {
            stream: Stream::new(),
            trace: Trace::default(),
            dump: Dump::new(),
            state: [0; STATE_WORDS],
        }
    }

    fn format(&mut self, card: &[u32]) {
        let begun = table::start_format(card, &mut self.state);
        self.trace.feed_start(begun);
    }

    fn open(&mut self, card: &[u32]) {
        let begun = table::open(card, &mut self.state);
        let free = card_free::count(&self.state[FREE..PLACES]);
        self.trace.feed_opening(begun, free);
    }

    // A find, and its depth, of which another call tells.
    fn find(&mut self, card: &[u32], length: usize) {
        let key = self.stream.next_number();
        match table::find(card, key) {
            Ok(found) => {
                let depth = depth_of_find(card, length, key);
                self.trace.feed_found(found, depth);
            }
            Err(refusal) => self.trace.feed_refusal(refusal),
        }
    }

    fn insert(&mut self, card: &[u32]) {
        let key = self.stream.next_number();
        let value = self.stream.next_number();
        let begun = table::start_insert(card, &mut self.state, key, value);
        self.trace.feed_start(begun);
    }

    fn delete(&mut self, card: &[u32]) {
        let key = self.stream.next_number();
        let begun = table::start_delete(card, &mut self.state, key);
        self.trace.feed_start(begun);
    }

    // A store, which `old` then has as well.
    fn stored(&mut self, card: &[u32], old: &mut [u32], place: u32) {
        let i = place as usize;
        let word = card.get(i).copied().unwrap_or(0);
        if let Some(before) = old.get_mut(i) {
            *before = word;
        }
        self.trace.feed_store(place, word);
    }

    // A step, with the card before it; last a 0 where it changed no word but the one it stored, else a 1.
    fn step(&mut self, card: &mut [u32], old: &mut [u32]) {
        let depth = u64::from(table::depth_kept(&self.state));
        match table::step(card, &mut self.state) {
            Ok(Answer::Stored(place)) => self.stored(card, old, place),
            Ok(Answer::Ready) => self.trace.feed(9),
            Ok(Answer::Absent) => self.trace.feed_all(&[8, depth]),
            Ok(Answer::Value(value)) => self.trace.feed_all(&[7, u64::from(value), depth]),
            Err(refusal) => self.trace.feed_refusal(refusal),
        }
        self.trace.feed(u64::from(&*card != &*old));
    }

    // A run of steps.
    fn steps(&mut self, card: &mut [u32]) {
        let mut words = [0; test_calls::MOST];
        let old = copy_of(card, &mut words);
        for _ in 0..self.stream.next_number() {
            self.step(card, old);
        }
    }

    // A call on the card that the first words of a row are, so many as are asked for, by its number in the stream.
    fn call(&mut self, words: &mut Words, length: usize, kind: u32) {
        let card = first_words(words, length);
        match kind {
            8 => self.format(card),
            0..10 => self.open(card),
            10 => self.find(card, length),
            11 => self.insert(card),
            12 => self.delete(card),
            _ => self.steps(card),
        }
    }

    // A call on a copy of the card that is shorter or longer.
    fn call_on_copy(&mut self, words: &mut Words) {
        let length = self.stream.next_number() as usize;
        let kind = self.stream.next_number();
        let mut copy = [0; test_calls::MOST];
        copy_of(first_words(words, self.trace.length), &mut copy);
        self.call(&mut copy, length, kind);
    }

    // The CRC of the card in hand.
    fn feed_card(&mut self, words: &mut Words) {
        let crc = crc::of_words(first_words(words, self.trace.length));
        self.trace.feed(u64::from(crc));
    }

    // The end of a trace.
    fn feed_end(&mut self, words: &mut Words) {
        self.feed_card(words);
        let stores = self.trace.stores;
        self.trace.feed(stores);
    }

    // A card of so many nodes, all of its words 0. Traces are numbered from 1 to 65536, and then from 1 again.
    fn new_card(&mut self, words: &mut Words) {
        words.fill(0);
        self.trace = Trace {
            number: self.trace.number % 65536 + 1,
            length: 8 + 24 * self.stream.next_low(),
            ..Trace::default()
        };
        test_calls::lose(&mut self.state);
    }

    // Some words after some zeros from a place on, set from outside; past the end nothing is set.
    fn set_words(&mut self, words: &mut Words) {
        let place = self.stream.next_low();
        let zeros = self.stream.next_low();
        let mut at = place + zeros;
        for _ in 0..self.stream.next_number() {
            self.set_word(words, at);
            at = next_place(at);
        }
    }

    fn set_word(&mut self, words: &mut Words, i: usize) {
        let value = self.stream.next_number();
        if let Some(word) = words.get_mut(i) {
            *word = value;
        }
    }

    fn poke(&mut self, words: &mut Words) {
        let place = self.stream.next_number() as usize;
        self.set_word(words, place);
    }

    // One operation of the stream, by its number there. An enum would only name each arm's call a second time.
    fn turn(&mut self, words: &mut Words, kind: u32) {
        match kind {
            1 => self.new_card(words),
            2 => self.set_words(words),
            3 => self.poke(words),
            4 => test_calls::lose(&mut self.state),
            5 => self.feed_card(words),
            6 => self.feed_end(words),
            7 => self.call_on_copy(words),
            8..14 => self.call(words, self.trace.length, kind),
            14 => self.dump.begin(&mut self.stream),
            15 => self.dump.set_bytes(&mut self.stream),
            16 => self.dump.read(&mut self.stream, &mut self.trace),
            17 => dumps::write(words, &mut self.stream, &mut self.trace),
            _ => self.dump.list(&mut self.trace),
        }
    }
}

fn main(rt: HostRuntime) {
    let mut words = [0; test_calls::MOST];
    let mut replay = Replay::new();
    for _ in 0..1000000 {
        let kind = replay.stream.next_number();
        if kind == 0 {
            break;
        }
        replay.turn(&mut words, kind);
        if kind == 6 {
            // where it can't be written the traces after it are replayed all the same
            let _ = println!(rt; "{} {}", replay.trace.number, replay.trace.hash);
        }
    }
}
