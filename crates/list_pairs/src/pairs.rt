// The pairs of a card, by rising key, stored in a lent slice as key, value, key, value ..
ghost use Rattle.std.specs.Prelude.{◌≡◌, ◌≤◌, length};
ghost use Rattle.walk_next.specs.Successor.{walk_from};
ghost use Rattle.list_pairs.specs.Listing.{most_pairs, laid, lay_pair, lay_pairs};

use walk_next::next_pair;

// No card has more pairs than 11 for each of its nodes.
const MOST_PAIRS: usize = card::SLOTS * card::GREATEST_NODES;

// Stores a pair from word `at` on, and answers where the next one goes. A pair that the slice has no room for is not stored.
fn put_pair(out: &mut [u32], at: usize, key: u32, value: u32) -> usize
    requires { at ≤ length out.old }
    ensures out_after { laid result out.new ≡ lay_pair (key, value) (laid at out.old) }
    ensures upper_bound { result ≤ length out.old }
{
    if out.len() - at < 2 {
        return at;
    }
    out[at] = key;
    out[at + 1] = value;
    at + 2
}

// "Walking an unchanged card from 0 lists each pair once, rising": stores them from the slice's start on, and answers how many words
// hold them.
#[tactic(auto, using(crate::proofs::ListingLaws::walk_none, crate::proofs::ListingLaws::walk_refused, crate::proofs::ListingLaws::walk_out))]
pub fn put_pairs(card: &[u32], out: &mut [u32], greatest: usize) -> usize
    ensures { laid result out.new ≡ lay_pairs (walk_from greatest 1 most_pairs card.now 0) (laid 0 out.old) }
{
    let mut at: usize = 0;
    let mut after: u32 = 0;
    for _ in 0..MOST_PAIRS {
        let Ok(Some(pair)) = next_pair(card, card::FIRST_LINE, after, greatest) else {
            return at;
        };
        at = put_pair(out, at, pair.key, pair.value);
        after = pair.key;
    }
    at
}
