// The dump in hand, and the dump, read, write and list lines of the traces (document 01, "Dumps and the list program").
use crate::crc;
use crate::stream::{Stream, next_place};
use crate::trace::Trace;
use card::{GREATEST_NODES, Refusal};
use test_calls::Words;

// One block of 512 bytes more than the longest dump has.
const MOST: usize = 58368;

#[derive(Drop)]
pub struct Dump {
    bytes: [u8; MOST],
    length: usize,
}

impl Dump {
    pub fn new() -> Self {
        Dump {
            bytes: [0; MOST],
            length: 0,
        }
    }

    // Another dump: so many bytes, all 0.
    pub fn begin(&mut self, stream: &mut Stream) {
        self.length = stream.next_number() as usize;
        self.bytes.fill(0);
    }

    // Some of its bytes from a place on; past the end nothing is set.
    pub fn set_bytes(&mut self, stream: &mut Stream) {
        let mut at = stream.next_number() as usize;
        for _ in 0..stream.next_number() {
            let value = stream.next_byte();
            if let Some(byte) = self.bytes.get_mut(at) {
                *byte = value;
            }
            at = next_place(at);
        }
    }

    // Reads it over the first n words; None where there are fewer.
    fn read_over(&self, lent: &mut Words, n: usize) -> Option<Result<usize, Refusal>> {
        let dump = self.bytes.get(..self.length)?;
        let words = lent.get_mut(..n)?;
        Some(card_dump::read_dump(dump, words, GREATEST_NODES))
    }

    pub fn read(&self, stream: &mut Stream, trace: &mut Trace) {
        let n = stream.next_number() as usize;
        let mut lent = [7; test_calls::MOST];
        let answer = self.read_over(&mut lent, n);
        trace.feed_lent(11, answer, crc::of_words(&lent[..n.min(test_calls::MOST)]));
    }

    // The text that `list` prints for it.
    pub fn list(&self, trace: &mut Trace) {
        let mut text = [0; list_text::TEXT_BYTES];
        let n = match self.bytes.get(..self.length) {
            Some(dump) => list_text::list_text(dump, &mut text),
            None => 0,
        };
        trace.feed_all(&[13, n as u64]);
        trace.feed(u64::from(crc::of_bytes(&text[..n.min(list_text::TEXT_BYTES)])));
    }
}

// Writes the card that the first `size` words are over the first n bytes; None where there are fewer.
fn write_over(
    words: &Words,
    size: usize,
    lent: &mut [u8],
    n: usize,
) -> Option<Result<usize, Refusal>> {
    let card = words.get(..size)?;
    let bytes = lent.get_mut(..n)?;
    Some(card_dump::write_dump(card, bytes, GREATEST_NODES))
}

pub fn write(words: &Words, stream: &mut Stream, trace: &mut Trace) {
    let n = stream.next_number() as usize;
    let mut lent = [7; MOST];
    let answer = write_over(words, trace.length, &mut lent, n);
    trace.feed_lent(12, answer, crc::of_bytes(&lent[..n.min(MOST)]));
}
