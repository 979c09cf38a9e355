// "in reached nodes the words called 0 above are 0": of an internal node.
ghost use Rattle.std.specs.Prelude.{◌≡◌, ◌≤◌, length};
ghost use Rattle.laws.specs.Lists.{all_zero};
ghost use Rattle.card_check.specs.Check.{unused_zero};

// Whether all these words are 0.
fn are_zero(words: &[u32]) -> bool
    ensures { result ≡ all_zero words.now }
{
    words.iter().all(|word| *word == 0)
}

// Whether the words of an internal node with c children that document 01 calls 0 are 0.
pub fn unused_is_zero(node: &[u32], c: usize) -> bool
    requires { (length node.now ≡ 24) × (1 ≤ c) × (c ≤ 11) }
    ensures { result ≡ unused_zero node.now c }
{
    are_zero(&node[c..card::VALUES]) && are_zero(&node[card::VALUES + c..card::LAST_WORD])
}
