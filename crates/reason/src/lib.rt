// What stands in the way of a new number: the value that its key holds already, a leaf with an empty slot, or a split and the room
// for it (document 02, W-209).

#![tactic(auto)]

ghost use Rattle.std.specs.Prelude.{◌≡◌, ◌≤◌, length};
ghost use Rattle.card.specs.Layout.{depth_limit};
ghost use Rattle.card_free.specs.NodeSet.{word_count, nodes_of, count_true};
ghost use Rattle.walk.specs.Descent.{slot_of};
ghost use Rattle.call_change.specs.Updates.{empty_reason, insert_reason};
ghost use Rattle.call_repair.specs.Repairing.{opened_card, opened_over};
ghost use Rattle.reason_key.specs.KeyFile.{key_in};
ghost use Rattle.reason.specs.Reason.{reason_told, told};
ghost use Rattle.reason.specs.InsertReason.{reason_for, reason_on, reason_of, reason_in_dump};

use call_repair::open_repaired;
use card::Refusal;
use state::block::{FREE, PLACES, STATE_WORDS};

// What is handed over for printing, where there is no refusal. A key of 0 is no key.
#[derive(Clone, Copy)]
pub enum Reason {
    NoKey,
    Held(u32),
    Slot,
    Split {
        run: usize,
        free: usize,
        need: usize,
    },
}

// Of a leaf that has not the key: an empty slot, or a split, with the 11-child nodes above the leaf, the free nodes, and those that
// it needs: "M being j + 5".
#[tactic(auto, unfolding(crate::specs::InsertReason::reason_for, call_change::specs::Updates::empty_reason))]
fn reason_absent(leaf: &[u32], free: &[u32], run: usize) -> Reason
    requires { (length leaf.now ≡ 24) × (length free.now ≡ word_count) × (run ≤ depth_limit) }
    ensures { reason_told result ≡ reason_for (empty_reason (slot_of leaf.now 0)) run (count_true (nodes_of free.now)) }
{
    match walk::find_slot(leaf, 0) {
        Some(_) => Reason::Slot,
        None => Reason::Split {
            run,
            free: card_free::count(free),
            need: run + call_change::SPLIT_NEED,
        },
    }
}

// In the leaf that the key leads to.
#[tactic(auto, using(walk::proofs::DescentLaws::slot_below), unfolding(crate::specs::InsertReason::reason_for, call_change::specs::Updates::reason_in, call_change::specs::Updates::insert_reason))]
fn reason_in(leaf: &[u32], key: u32, free: &[u32], run: usize) -> Reason
    requires { (length leaf.now ≡ 24) × (length free.now ≡ word_count) × (run ≤ depth_limit) }
    ensures { reason_told result ≡ reason_for (insert_reason leaf.now key) run (count_true (nodes_of free.now)) }
{
    match walk::find_slot(leaf, key) {
        Some(i) => Reason::Held(leaf[card::VALUES + i]),
        None => reason_absent(leaf, free, run),
    }
}

// On a card with these free nodes.
#[tactic(auto, unfolding(crate::specs::InsertReason::reason_on, crate::specs::InsertReason::reason_landed, call_change::specs::Updates::landing, walk::specs::Descent::way))]
fn reason_on(card: &[u32], free: &[u32], key: u32, greatest: usize) -> Result<Reason, Refusal>
    requires { length free.now ≡ word_count }
    ensures { told result ≡ reason_on greatest card.now (nodes_of free.now) key }
{
    let n = card::nodes_of(card.len(), greatest).ok_or(Refusal::WrongLength)?;
    if key == 0 {
        return Ok(Reason::NoKey);
    }
    let landing = walk::find_landing(card, n, key, card[card::ROOT_PLACE] as usize);
    let leaf = landing.ok_or(Refusal::WrongNode)?;
    Ok(reason_in(card::node_at(card, leaf.node), key, free, leaf.run))
}

// "opens and repairs it": a card.
#[tactic(auto, unfolding(crate::specs::InsertReason::reason_of, crate::specs::InsertReason::reason_begun, call_repair::specs::Repairing::left_by, state::specs::Block::memory_in))]
pub fn insert_reason(card: &mut [u32], key: u32, greatest: usize) -> Result<Reason, Refusal>
    ensures value { told result ≡ reason_of greatest card.old key }
    ensures card_after { card.new ≡ (opened_card greatest card.old).card }
{
    let mut state: [u32; STATE_WORDS] = [0; STATE_WORDS];
    open_repaired(card, &mut state, greatest)?;
    reason_on(card, &state[FREE..PLACES], key, greatest)
}

// A dump of a card up to some greatest N, read into a lent slice.
#[tactic(auto, using(card_dump::proofs::AnswerLaws::read_sized, call_repair::proofs::RepairingLaws::over_refused, call_repair::proofs::RepairingLaws::over_read, call_repair::proofs::RepairingLaws::read_card, call_repair::proofs::RepairingLaws::read_beyond), unfolding(crate::specs::InsertReason::reason_in_dump, crate::specs::InsertReason::reason_read))]
pub fn insert_reason_in_dump(
    bytes: &[u8],
    card: &mut [u32],
    key: u32,
    greatest: usize,
) -> Result<Reason, Refusal>
    ensures value { told result ≡ reason_in_dump greatest bytes.now (length card.old) key }
    ensures card_after { card.new ≡ opened_over greatest bytes.now card.old }
{
    let size = card_dump::read_dump(bytes, card, greatest)?;
    insert_reason(&mut card[..size], key, greatest)
}

// "then reads a key from the last line of a file": of a dump and of the bytes of that file.
pub fn insert_reason_for_file(
    dump: &[u8],
    file: &[u8],
    card: &mut [u32],
    greatest: usize,
) -> Result<Reason, Refusal>
    ensures value { told result ≡ reason_in_dump greatest dump.now (length card.old) (key_in file.now) }
    ensures card_after { card.new ≡ opened_over greatest dump.now card.old }
{
    // where the file has none, 0 stands for it, which is no key
    let key = reason_key::key_in(file).unwrap_or(0);
    insert_reason_in_dump(dump, card, key, greatest)
}
