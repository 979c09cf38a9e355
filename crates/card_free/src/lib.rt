// The free nodes, one bit each: put in, taken out, counted, and searched for the next one. Their words are lent by whoever keeps
// them, so that no set is copied on its way through the calls.

#![tactic(auto)]

ghost use Rattle.std.specs.Prelude.{◌≡◌, true, false, ◌*◌, ◌<◌, length, set, get_or, take, drop};
ghost use Rattle.laws.specs.Digits.{digits_of};
ghost use Rattle.card_free.specs.NodeSet.{word_count, capacity, nodes_of, up_to, all_nodes, count_true, first_from, next_free};

// How many words a set has; `word_count` of specs/NodeSet.antt says the same.
pub const WORDS: usize = card::FREE_WORDS;

// How many bits that makes: a node of the set is below it.
pub const CAPACITY: usize = WORDS * 32;

// Node m is bit m % 32 of word m / 32.
pub fn contains(words: &[u32], m: usize) -> bool
    requires { (length words.now ≡ word_count) × (m < capacity) }
    ensures { result ≡ get_or (nodes_of words.now) m false }
{
    (words[m / 32] >> (m % 32)) % 2 == 1
}

pub fn put_in(words: &mut [u32], m: usize)
    requires { (length words.old ≡ word_count) × (m < capacity) }
    ensures { nodes_of words.new ≡ set (nodes_of words.old) m true }
{
    words[m / 32] |= 1 << (m % 32);
}

pub fn take_out(words: &mut [u32], m: usize)
    requires { (length words.old ≡ word_count) × (m < capacity) }
    ensures { nodes_of words.new ≡ set (nodes_of words.old) m false }
{
    words[m / 32] &= !(1 << (m % 32));
}

// Word q of the set of nodes 0 to n.
fn full_word(q: usize, n: usize) -> u32
    requires { (q < word_count) × (n < capacity) }
    ensures { digits_of 32 result ≡ take 32 (drop (32 * q) (up_to n)) }
{
    if n < 32 * q {
        return 0;
    }
    let last = n - 32 * q;
    if 31 <= last {
        return u32::MAX;
    }
    (2u32 << last) - 1
}

// Nodes 1 to n, a word at a time. There is no node 0.
pub fn fill(words: &mut [u32], n: usize)
    requires { (length words.old ≡ word_count) × (n < capacity) }
    ensures { nodes_of words.new ≡ all_nodes n }
{
    // By index: of what a loop over `iter_mut().enumerate()` writes a proof knows nothing.
    for q in 0..WORDS {
        words[q] = full_word(q, n);
    }
    take_out(words, 0);
}

// The first node of the set at or after a. The first word is masked, so that its trailing zeros pass over the nodes before a.
fn first_from(words: &[u32], a: usize) -> Option<usize>
    requires { (length words.now ≡ word_count) × (a < capacity) }
    ensures { result ≡ first_from (nodes_of words.now) a }
{
    let mut mask = u32::MAX << (a % 32);
    for q in a / 32..WORDS {
        let word = words[q] & mask;
        if word != 0 {
            return Some(q * 32 + word.trailing_zeros() as usize);
        }
        mask = u32::MAX;
    }
    None
}

// The next node of the set after `last`, going round to 1. Nothing lies after the last bit, so any `last` is taken.
pub fn next_free(words: &[u32], last: usize) -> Option<usize>
    requires { length words.now ≡ word_count }
    ensures { result ≡ next_free (nodes_of words.now) last }
{
    if CAPACITY - 1 <= last {
        return first_from(words, 1);
    }
    first_from(words, last + 1).or_else(|| first_from(words, 1))
}

// How many nodes the set has.
pub fn count(words: &[u32]) -> usize
    requires { length words.now ≡ word_count }
    ensures { result ≡ count_true (nodes_of words.now) }
{
    words.iter().map(|word| word.count_ones() as usize).sum()
}
