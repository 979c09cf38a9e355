// New nodes, word by word: "words 0 to 23 of each in order". Their places go into one row, their words into another.
ghost use Rattle.std.specs.Prelude.{◌≡◌, ◌++◌, ◌+◌, ◌*◌, ◌^◌, ◌≤◌, ◌<◌, length, take, drop};
ghost use Rattle.laws.specs.Lists.{pad};
ghost use Rattle.card.specs.Layout.{node_image, children, routing_keys};
ghost use Rattle.change_rows.specs.Nodes.{IsNumber, Numbered, node_places, places_linked};

// The places of node m's words.
pub fn write_places(places: &mut [u32], m: usize)
    requires { (length places.old ≡ 24) × IsNumber m }
    ensures { places.new ≡ node_places m }
{
    let at = (card::HEADER_WORDS + card::NODE_WORDS * (m - 1)) as u32;
    for (i, place) in places.iter_mut().enumerate() {
        *place = at + i as u32;
    }
}

// Eleven words, those of a part and 0 after them: "unused words are 0". By the index: `copy_from_slice` is a call of memmove here, which
// no other function needs, and C would have to bring it.
fn write_row(row: &mut [u32], part: &[u32])
    requires { (length row.old ≡ 11) × (length part.now ≤ 11) }
    ensures { row.new ≡ pad 11 part.now }
{
    for i in 0..part.len() {
        row[i] = part[i];
    }
    row[part.len()..].fill(0);
}

// The 24 words of a node: its kind, its keys, what is beside them, and 0.
pub fn write_node(words: &mut [u32], kind: u32, keys: &[u32], beside: &[u32])
    requires { (length words.old ≡ 24) × (length keys.now ≤ 11) × (length beside.now ≤ 11) }
    ensures { words.new ≡ node_image kind keys.now beside.now }
{
    write_row(&mut words[card::KEYS..card::VALUES], keys);
    write_row(&mut words[card::VALUES..card::LAST_WORD], beside);
    words[0] = kind;
    words[card::LAST_WORD] = 0;
}

// The places of a change over its new nodes, at the front of a row: "words 0 to 23 of each in order; a single link store .. comes last".
pub fn lay_places(places: &mut [u32], nodes: [u32; 3], count: usize, link: usize)
    requires { (length places.old ≡ 73) × (count ≤ 3) × Numbered count nodes × (link < 2 ^ 32) }
    ensures { places.new ≡ places_linked (take count nodes) link ++ drop (24 * count + 1) places.old }
{
    for (i, m) in nodes[..count].iter().enumerate() {
        let at = card::NODE_WORDS * i;
        write_places(&mut places[at..at + card::NODE_WORDS], *m as usize);
    }
    places[card::NODE_WORDS * count] = link as u32;
}

// "its children being those before the first 0"
pub fn children(node: &[u32]) -> &[u32]
    requires { length node.now ≡ 24 }
    ensures { result.now ≡ children node.now }
{
    let count = card::child_count(node);
    &node[card::VALUES..card::VALUES + count]
}

// "With c children the routing keys are words 1 to c − 1"
pub fn routing_keys(node: &[u32]) -> &[u32]
    requires { (length node.now ≡ 24) × (0 < length (children node.now)) }
    ensures { result.now ≡ routing_keys node.now }
{
    let count = card::child_count(node);
    &node[card::KEYS..count]
}
