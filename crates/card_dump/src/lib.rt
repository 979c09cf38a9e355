// Dumps of a card, read and written (document 01, "Dumps and the list program").

#![tactic(auto)]

ghost use Rattle.std.specs.Prelude.{◌≡◌, ◌++◌, ◌+◌, ◌*◌, ◌%◌, ◌≤◌, length, drop};
ghost use Rattle.laws.specs.Lists.{all_zero};
ghost use Rattle.card.specs.Layout.{greatest_nodes};
ghost use Rattle.card_dump.specs.Answer.{told};
ghost use Rattle.card_dump.specs.Padding.{eight_at};
ghost use Rattle.card_dump.specs.Dump.{card_bytes, padded_length, dump_of, word_at, dump_words, words_for, damaged, read_answer, read_over, write_answer, write_over};

use card::{HEADER_WORDS, LEAST_NODES, NODE_WORDS, Refusal};

// Stores the words of a dump, and answers how many they are: "Reading a dump checks 11, 12".
pub fn read_dump(dump: &[u8], words: &mut [u32], greatest: usize) -> Result<usize, Refusal>
    ensures value { told result ≡ read_answer greatest dump.now (length words.old) }
    ensures words_after { words.new ≡ read_over greatest dump.now words.old }
{
    if is_damaged(dump, greatest) {
        return Err(Refusal::WrongDump);
    }
    let size = HEADER_WORDS + NODE_WORDS * word_at(dump, 1) as usize;
    if words.len() < size {
        return Err(Refusal::ShortSlice);
    }
    read_words(dump, &mut words[..size]);
    Ok(size)
}

// Stores the dump of a card, and answers how many bytes it is: "writing one checks 1, 2, 3, 12".
pub fn write_dump(card: &[u32], bytes: &mut [u8], greatest: usize) -> Result<usize, Refusal>
    ensures value { told result ≡ write_answer greatest card.now (length bytes.old) }
    ensures bytes_after { bytes.new ≡ write_over greatest card.now bytes.old }
{
    card::checked_nodes(card, greatest)?;
    let size = padded_length(card.len());
    if bytes.len() < size {
        return Err(Refusal::ShortSlice);
    }
    write_padded(card, &mut bytes[..size]);
    Ok(size)
}

// The length in bytes of the dump of so many words.
#[tactic(auto, unfolding(crate::specs::Dump::padded_length))]
fn padded_length(words: usize) -> usize
    requires { words ≤ words_for greatest_nodes }
    ensures { result ≡ padded_length words }
{
    (4 * words + 511) / 512 * 512
}

// Whether refusal 11 is due. The tests are in the paper's order, so that word 1 is read only where there is one.
fn is_damaged(dump: &[u8], greatest: usize) -> bool
    ensures { result ≡ damaged greatest dump.now }
{
    if dump.is_empty() {
        return true;
    }
    if dump.len() % 512 != 0 {
        return true;
    }
    // "above 57,856": the padded length for the greatest number of nodes
    let most = card::limit(greatest);
    if padded_length(HEADER_WORDS + NODE_WORDS * most) < dump.len() {
        return true;
    }
    let n = word_at(dump, 1) as usize;
    if n < LEAST_NODES {
        return true;
    }
    if most < n {
        return true;
    }
    let words = HEADER_WORDS + NODE_WORDS * n;
    if padded_length(words) != dump.len() {
        return true;
    }
    !is_zero(dump, words / 2)
}

// Whether all bytes from number 8 × `from` on are 0, eight at a time (document 02, W-202). By the number of the eight: over the part
// `&eights[from..]`, by `for` or by `all`, the compiler does not unroll it, and reading takes 8 to 20 instructions more.
fn is_zero(dump: &[u8], from: usize) -> bool
    requires { length dump.now % 8 ≡ 0 }
    ensures { result ≡ all_zero (drop (8 * from) dump.now) }
{
    let (eights, _) = dump.as_chunks::<8>();
    for k in from..eights.len() {
        if eight(&eights[k]) != 0 {
            return false;
        }
    }
    true
}

// Eight bytes as one 64-bit number: 0 exactly when all eight are.
#[tactic(auto, unfolding(crate::specs::Dump::word_at))]
fn eight(bytes: &[u8; 8]) -> u64
    ensures { result ≡ eight_at bytes.now 0 }
{
    u64::from_le_bytes(*bytes)
}

// Word i of a dump, "low byte first".
#[tactic(auto, unfolding(crate::specs::Dump::word_at))]
fn word_at(dump: &[u8], i: usize) -> u32
    requires { 4 * i + 4 ≤ length dump.now }
    ensures { result ≡ word_at dump.now i }
{
    let at = 4 * i;
    u32::from_le_bytes([dump[at], dump[at + 1], dump[at + 2], dump[at + 3]])
}

// Stores the first words of a dump over all of `words`.
fn read_words(dump: &[u8], words: &mut [u32])
    requires { 4 * length words.old ≤ length dump.now }
    ensures { words.new ≡ dump_words (length words.old) dump.now }
{
    for (i, word) in words.iter_mut().enumerate() {
        *word = word_at(dump, i);
    }
}

// Stores the dump of a card over all of `bytes`, "padded with zero bytes".
fn write_padded(card: &[u32], bytes: &mut [u8])
    requires { length bytes.old ≡ padded_length (length card.now) }
    ensures { bytes.new ≡ dump_of card.now }
{
    let (words, padding) = bytes.split_at_mut(4 * card.len());
    write_words(card, words);
    padding.fill(0);
}

// Stores the bytes of all words of a card over all of `bytes`, "low byte first".
fn write_words(card: &[u32], bytes: &mut [u8])
    requires { length bytes.old ≡ 4 * length card.now }
    ensures { bytes.new ≡ card_bytes card.now }
{
    for (i, word) in card.iter().enumerate() {
        bytes[4 * i..4 * i + 4].copy_from_slice(&word.to_le_bytes());
    }
}
