// The nodes given for a change: "A change takes the next free node after the one given last".
ghost use Rattle.std.specs.Prelude.{◌≡◌, ◌≤◌, length, take};
ghost use Rattle.card_free.specs.NodeSet.{word_count, nodes_of};
ghost use Rattle.change_plan.specs.Planning.{take_numbers, without_all, last_of};
ghost use Rattle.change_plan.specs.Plan.{given_by, left_given, Among};

use card_free::next_free;

// So many nodes in the order given, "left, right, then above", with 0 for those that are not needed, "or too few free nodes": none. None
// is taken out: the search goes on in the same words, and when it comes back to the first node that it found it has gone round and none
// is left. While none is found the first is 0, and there is no node 0.
pub fn give(free: &[u32], last: usize, count: usize) -> Option<[u32; 3]>
    requires { (length free.now ≡ word_count) × (count ≤ 3) }
    ensures { (take_numbers count (nodes_of free.now) last ≡ given_by result count) × (count ≡ 0 → left_given result ≡ 0) }
{
    let mut nodes: [u32; 3] = [0; 3];
    let mut latest = last;
    for i in 0..count {
        let Some(m) = next_free(free, latest) else {
            return None;
        };
        let number = m as u32;
        if number == nodes[0] {
            return None;
        }
        nodes[i] = number;
        latest = m;
    }
    Some(nodes)
}

// "nor given for the change in hand": the nodes given are free no longer. The answer is the node given last, then.
pub fn take(free: &mut [u32], nodes: [u32; 3], count: usize, last: u32) -> u32
    requires { (length free.old ≡ word_count) × (count ≤ 3) × Among count nodes }
    ensures free_after { nodes_of free.new ≡ without_all (take count nodes) (nodes_of free.old) }
    ensures value { result ≡ last_of last (take count nodes) }
{
    let mut latest = last;
    for m in &nodes[..count] {
        latest = *m;
        card_free::take_out(free, latest as usize);
    }
    latest
}
