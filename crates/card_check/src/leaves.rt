// One leaf: "A leaf is sound when its keys are distinct and in its range".
ghost use Rattle.std.specs.Prelude.{◌≡◌, true, ◌&&◌, not, ◌+◌, ◌<◌, ltb, leb, length, get_or, drop};
ghost use Rattle.card.specs.Layout.{key_words, leaf_pairs};
ghost use Rattle.card_family.specs.Families.{family_count};
ghost use Rattle.card_check.specs.Check.{member, leaf_sound, Least, Counts};
ghost use Rattle.card_check.specs.Counting.{keys_counted};

// Whether the key of slot i stands in a later slot too. With a loop or `any` in place of `contains` the loop of `leaf_pairs` is not
// unrolled: the check of a card with 3,000 pairs then takes 125,492 instructions and not 120,651.
fn is_repeated(node: &[u32], i: usize) -> bool
    requires { (length node.now ≡ 24) × (i < 11) }
    ensures { result ≡ member (get_or node.now (1 + i) 0) (drop (i + 1) (key_words node.now)) }
{
    node[card::KEYS + i + 1..card::VALUES].contains(&node[card::KEYS + i])
}

// Whether a key lies in the range from `low`, included, to `high`, excluded.
fn is_in_range(key: u32, low: u32, high: u64) -> bool
    ensures { result ≡ (leb low key && ltb key high) }
{
    low <= key && u64::from(key) < high
}

// Whether the key of slot i stands in no later slot. Keys mostly rise from slot to slot: one below all later ones needs no search.
fn is_new(node: &[u32], i: usize, least: u32) -> bool
    requires { (length node.now ≡ 24) × (i < 11) × ((get_or node.now (1 + i) 0 ≡ 0) → ⊥) × Least least (drop (i + 1) (key_words node.now)) }
    ensures { result ≡ not (member (get_or node.now (1 + i) 0) (drop (i + 1) (key_words node.now))) }
{
    node[card::KEYS + i] < least || !is_repeated(node, i)
}

// How many pairs a leaf holds whose keys are distinct and in its range. From the last slot to the first, so that `least` is the least
// key of the later slots.
pub fn leaf_pairs(node: &[u32], low: u32, high: u64) -> Option<usize>
    requires { length node.now ≡ 24 }
    ensures { Counts result (leaf_sound low high (key_words node.now)) (length (leaf_pairs node.now)) }
{
    let mut least = u32::MAX;
    let mut pairs = 0;
    for i in (0..card::SLOTS).rev() {
        let key = node[card::KEYS + i];
        if key != 0 {
            if !is_in_range(key, low, high) || !is_new(node, i, least) {
                return None;
            }
            least = least.min(key);
            pairs += 1;
        }
    }
    Some(pairs)
}

// Each key of a leaf is counted into the totals by family.
fn count_keys(node: &[u32], totals: &mut [u32])
    requires { (length node.now ≡ 24) × (length totals.old ≡ family_count) }
    ensures { totals.new ≡ keys_counted (key_words node.now) totals.old }
{
    for i in (0..card::SLOTS).rev() {
        let key = node[card::KEYS + i];
        if key != 0 {
            card_family::count_in(totals, key);
        }
    }
}

// The pairs of a sound leaf are counted into the totals by family (document 02, W-204). At most 15 leaves of a table have a range that
// goes beyond a family; of the others the number of pairs is enough. With each key counted in the loop of `leaf_pairs`, which is then
// not unrolled, an opening of 3,000 pairs takes 166,228 instructions and not 125,754.
pub fn count_leaf(node: &[u32], low: u32, high: u64, pairs: usize, totals: &mut [u32])
    requires { (length node.now ≡ 24) × (length totals.old ≡ family_count)
        × (leaf_sound low high (key_words node.now) ≡ true) × (pairs ≡ length (leaf_pairs node.now)) }
    ensures { totals.new ≡ keys_counted (key_words node.now) totals.old }
{
    if card_family::is_one_family(low, high) {
        card_family::count_several(totals, low, pairs as u32);
        return;
    }
    count_keys(node, totals);
}
