// The leaf that a key leads to on the card, by a reader of its own.
type Node = [u32; 24];

// "node m begins at word 8 + 24 × (m − 1)"
fn node(card: &[u32], m: u32) -> Option<&Node> {
    let before = m.checked_sub(1)?;
    let (nodes, _) = card.get(8..)?.as_chunks();
    nodes.get(before as usize)
}

// The child of an internal node that a key takes.
fn child(node: &Node, key: u32) -> u32 {
    for i in 0..10 {
        if node[13 + i] == 0 || key < node[1 + i] {
            return node[12 + i];
        }
    }
    node[22]
}

// "whether the leaf its key leads to is then full on the card"
pub fn is_full(card: &[u32], key: u32) -> bool {
    let Some(root) = card.get(4) else {
        return false;
    };
    let mut m = *root;
    for _ in 0..20 {
        let Some(node) = node(card, m) else {
            return false;
        };
        if node[0] == 1 {
            return !node[1..12].contains(&0);
        }
        m = child(node, key);
    }
    false
}
