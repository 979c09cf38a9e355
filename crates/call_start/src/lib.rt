// Starting to format, and starting an update: its refusals, the room it needs, and the state it hands back (document 01, "State, steps
// and free nodes").

#![tactic(auto)]

ghost use Rattle.std.specs.Prelude.{◌≡◌, ℕ, true, false, ◌≤◌, ◌<◌, length, set, drop, Ok};
ghost use Rattle.card.specs.Refusals.{number_of};
ghost use Rattle.card.specs.Header.{Sized};
ghost use Rattle.card.specs.Layout.{greatest_nodes, depth_limit, node_at, formatted_root};
ghost use Rattle.card.specs.Lines.{IsLine, seen};
ghost use Rattle.card_family.specs.Families.{family_count, no_totals};
ghost use Rattle.card_free.specs.NodeSet.{word_count, capacity, nodes_of, all_nodes};
ghost use Rattle.walk.specs.Descent.{way, leaf_of, depth_of, run_over};
ghost use Rattle.laws.specs.Cases.{pick};
ghost use Rattle.state.specs.declared.Doing.TheVariants.{Inserting, Deleting};
ghost use Rattle.state.specs.declared.Phase.TheVariants.{NotBegun};
ghost use Rattle.state.specs.Block.{free_at, totals_at, back_at, state_words, part, memory_in};
ghost use Rattle.state.specs.Begun.{told, Started as BegunStarted};
ghost use Rattle.state.specs.Clauses.{OpenCall, StartCall};
ghost use Rattle.call_change.specs.Updates.{landing, insert_reason, room_for};
ghost use Rattle.call_start.specs.Starts.{format_of, room_of, start_accepted, insert_of, delete_of};
ghost use Rattle.call_start.specs.Refusals.{start_refusal, line_way, room_where, landing_refusal, due_refusal, due_depth};

use card::Refusal;
use card_family::FAMILIES;
use state::block::{
    DEPTH, FREE, NODES, PLACES, STATE_WORDS, is_idle, refuse_beginning, store_doing, store_resting,
    store_totals, wide,
};
use state::{Begun, Doing, Phase};
use walk::End;

// The refusals 1, 2, 3, 7, 18 and 6 of starting an update, in this order.
fn check_start(
    card: &[u32],
    nodes: usize,
    idle: bool,
    line: u32,
    key: u32,
    greatest: usize,
) -> Result<(), Refusal>
    ensures { number_of result ≡ start_refusal greatest line card.now nodes idle key }
{
    if !card::is_sized(card.len(), nodes, greatest) {
        return Err(Refusal::WrongLength);
    }
    card::check_header(card, nodes)?;
    if !idle {
        return Err(Refusal::Busy);
    }
    if !card::has_line(card, line) {
        return Err(Refusal::WrongLine);
    }
    if key == 0 {
        return Err(Refusal::ZeroKey);
    }
    Ok(())
}

// "A splitting insert needs j + 5 free nodes." The 11-child nodes above leaf m of the line's table are counted only where it is full;
// they may be any number here, so the 5 are taken from the free nodes.
fn has_room(card: &[u32], state: &[u32], line: u32, m: usize, key: u32) -> bool
    requires { (length state.now ≡ state_words) × Sized greatest_nodes (length card.now) (memory_in state.now).nodes
        × (1 ≤ m) × (m ≤ (memory_in state.now).nodes) × IsLine line }
    ensures { result ≡ room_for (room_of (memory_in state.now))
        (run_over card.now 0 (line_way line card.now (memory_in state.now).nodes key).inner)
        (insert_reason (node_at card.now m) key) }
{
    let leaf = card::node_at(card, m);
    if walk::find_slot(leaf, key).is_some() || walk::find_slot(leaf, 0).is_some() {
        return true;
    }
    let count = card_free::count(&state[FREE..PLACES]);
    if count < call_change::SPLIT_NEED {
        return false;
    }
    let run = walk::run_above(card, wide(state[NODES]), key, card::root_of(card, line));
    run <= count - call_change::SPLIT_NEED
}

// The same of an update that may split its leaf, or of one that never does and so needs no room.
fn has_room_where(splits: bool, card: &[u32], state: &[u32], line: u32, m: usize, key: u32) -> bool
    requires { (length state.now ≡ state_words) × Sized greatest_nodes (length card.now) (memory_in state.now).nodes
        × (1 ≤ m) × (m ≤ (memory_in state.now).nodes) × IsLine line }
    ensures { result ≡ pick splits (room_for (room_of (memory_in state.now))
        (run_over card.now 0 (line_way line card.now (memory_in state.now).nodes key).inner)
        (insert_reason (node_at card.now m) key)) true }
{
    !splits || has_room(card, state, line, m, key)
}

// The refusals 9, "node number 0 or above N, kind not 1 to 3, no children, or more than 10 internal nodes", and 8, "key absent, leaf full,
// free nodes fewer than j + 5"; or the internal nodes on the key's way ("It is the number .. when the call began": document 02, W-203).
// `splits` says whether the update may split its leaf.
fn check_way(
    card: &[u32],
    state: &[u32],
    line: u32,
    key: u32,
    splits: bool,
) -> Result<usize, Refusal>
    requires { (length state.now ≡ state_words) × Sized greatest_nodes (length card.now) (memory_in state.now).nodes × IsLine line }
    ensures refused { number_of result ≡ landing_refusal (room_where splits (seen line card.now) key (room_of (memory_in state.now))
        (landing (seen line card.now) (memory_in state.now).nodes key))
        (landing (seen line card.now) (memory_in state.now).nodes key) }
    ensures depth { (d : ℕ) → result ≡ Ok d → d ≡ depth_of (leaf_of (way (seen line card.now) (memory_in state.now).nodes key)) }
{
    let nodes = wide(state[NODES]);
    let End::Leaf { position, depth } = walk::descend(
        card,
        nodes,
        key,
        card::root_of(card, line),
        false,
    ) else {
        return Err(Refusal::WrongNode);
    };
    if has_room_where(splits, card, state, line, position.node, key) {
        Ok(depth)
    } else {
        Err(Refusal::NoRoom)
    }
}

// All refusals of starting an update, by the words of a block; or the internal nodes on its key's way.
fn check_update(
    card: &[u32],
    state: &[u32],
    line: u32,
    key: u32,
    splits: bool,
    greatest: usize,
) -> Result<usize, Refusal>
    requires { length state.now ≡ state_words }
    ensures refused { number_of result
        ≡ due_refusal greatest line card.now (memory_in state.now) key
        (room_where splits (seen line card.now) key (room_of (memory_in state.now))) }
    ensures depth { (d : ℕ) → result ≡ Ok d → d ≡ due_depth greatest line card.now (memory_in state.now) key }
{
    check_start(
        card,
        wide(state[NODES]),
        is_idle(state),
        line,
        key,
        greatest,
    )?;
    check_way(card, state, line, key, splits)
}

// "Starting an update stores nothing": the block has the update in hand.
fn begin(state: &mut [u32], doing: Doing, depth: usize)
    requires { (length state.old ≡ state_words) × (depth ≤ depth_limit) }
    ensures { StartCall state.old state.new BegunStarted doing (start_accepted (memory_in state.old) doing depth) }
{
    store_doing(state, doing);
    state[DEPTH] = depth as u32;
}

// The root that formatting makes, as a number of a node.
const ROOT: usize = card::FORMATTED_ROOT as usize;

// All other nodes are free.
fn free_but_root(free: &mut [u32], n: usize)
    requires { (length free.old ≡ word_count) × (n < capacity) }
    ensures { nodes_of free.new ≡ set (all_nodes n) formatted_root false }
{
    card_free::fill(free, n);
    card_free::take_out(free, ROOT);
}

// What a state holds of the table that formatting makes: all nodes but the root are free, and the totals are "0 while formatting"
// (document 02, W-204).
fn hold_empty(state: &mut [u32], n: usize)
    requires { (length state.old ≡ state_words) × (n < capacity) }
    ensures word_count_after { nodes_of (part state.new free_at word_count) ≡ set (all_nodes n) formatted_root false }
    ensures family_count_after { part state.new totals_at family_count ≡ no_totals }
    ensures state_unchanged { drop back_at state.new ≡ drop back_at state.old }
{
    free_but_root(&mut state[FREE..PLACES], n);
    store_totals(state, &[0; FAMILIES]);
}

// "Formatting needs no earlier state". While it goes on the free nodes are those of the table it makes, and the search for one begins
// after the root of that table (document 02, W-205).
pub fn start_format(card: &[u32], state: &mut [u32], greatest: usize) -> Result<Begun, Refusal>
    ensures { OpenCall state.old state.new (told result) (format_of greatest card.now) }
{
    if state.len() != STATE_WORDS {
        return Err(Refusal::NoState);
    }
    let Some(n) = card::nodes_of(card.len(), greatest) else {
        return refuse_beginning(state, Refusal::WrongLength);
    };
    hold_empty(state, n);
    store_resting(
        state,
        n,
        card::FORMATTED_ROOT,
        Doing::Formatting { made: 0 },
    );
    Ok(Begun::Started)
}

// "Starting an update stores nothing." A line that the card has not is refused with 18, just before 6 (document 02, W-207).
pub fn start_insert(
    card: &[u32],
    state: &mut [u32],
    line: u32,
    key: u32,
    value: u32,
    greatest: usize,
) -> Result<Begun, Refusal>
    ensures { StartCall state.old state.new (told result) (Inserting key value NotBegun)
        (insert_of greatest line card.now (memory_in state.old) key value) }
{
    if state.len() != STATE_WORDS {
        return Err(Refusal::NoState);
    }
    let doing = Doing::Inserting {
        key,
        value,
        phase: Phase::NotBegun,
    };
    let depth = check_update(card, state, line, key, true, greatest)?;
    begin(state, doing, depth);
    Ok(Begun::Started)
}

// "Refusing a delete on a full card" would spoil a bin: a delete needs no free nodes to start.
pub fn start_delete(
    card: &[u32],
    state: &mut [u32],
    line: u32,
    key: u32,
    greatest: usize,
) -> Result<Begun, Refusal>
    ensures { StartCall state.old state.new (told result) (Deleting key NotBegun 0)
        (delete_of greatest line card.now (memory_in state.old) key) }
{
    if state.len() != STATE_WORDS {
        return Err(Refusal::NoState);
    }
    let doing = Doing::Deleting {
        key,
        phase: Phase::NotBegun,
        value: 0,
    };
    let depth = check_update(card, state, line, key, false, greatest)?;
    begin(state, doing, depth);
    Ok(Begun::Started)
}
