// The change in hand, played one store a step, on the words of the block.
ghost use Rattle.std.specs.Prelude.{◌≡◌, [], ◌∷◌, true, false, not, ◌&&◌, ◌+◌, ◌≤◌, ◌<◌, length, set, drop, get_or};
ghost use Rattle.laws.specs.Lists.{before_zero};
ghost use Rattle.card.specs.Lines.{IsLine, seen};
ghost use Rattle.card_free.specs.NodeSet.{word_count, nodes_of};
ghost use Rattle.change_plan.specs.Plan.{stores_of};
ghost use Rattle.change_plan.specs.Planning.{with_all};
ghost use Rattle.card_family.specs.Families.{family_count};
ghost use Rattle.state.specs.Memory.{settled_totals, advanced};
ghost use Rattle.state.specs.Steps.{is_idle, step_store};
ghost use Rattle.state.specs.Answer.{told};
ghost use Rattle.state.specs.Results.{more_to_store};
ghost use Rattle.state.specs.Block.{free_at, places_at, totals_at, values_at, state_words, block_word, part, doing_in, memory_in};
ghost use Rattle.state.specs.Blocks.{over, words_of};
ghost use Rattle.call_step.specs.StepBlocks.{idled_block, totalled, settled_block};
ghost use Rattle.call_step.specs.Clauses.{MadeOn, HoldsTask};

use card::Refusal;
use state::Answer;
use state::block::{
    COUNT, CUT, DECIDED, DELETING, DOING, FIRST, FREE, IDLE, IN_HAND, INSERTING, LINES, MADE,
    PLACES, REPAIRING, SECOND, THIRD, TOTALS, VALUES, wide,
};

// Nothing is being done. The depth stays as it was kept at the start, since a final answer tells that one (document 02, W-203).
fn clear_task(state: &mut [u32])
    requires { length state.old ≡ state_words }
    ensures { state.new ≡ set (set (set (set state.old 2 0) 3 0) 4 0) 5 0 }
{
    state[DOING..MADE].fill(0);
}

// "or gives the final answer and makes the state idle": the rows are left as they are.
#[tactic(auto, using(crate::proofs::PlayLaws::idled_stored))]
pub fn finish(state: &mut [u32])
    requires { length state.old ≡ state_words }
    ensures { state.new ≡ idled_block state.old }
{
    clear_task(state);
    state[MADE] = 0;
    state[COUNT] = 0;
    clear_cut(state);
}

// Node m is free. A number that is no node's changes nothing.
#[tactic(auto, using(crate::proofs::PlayLaws::free_outside))]
fn free_node(free: &mut [u32], m: usize)
    requires { length free.old ≡ word_count }
    ensures { nodes_of free.new ≡ set (nodes_of free.old) m true }
{
    if card_free::CAPACITY <= m {
        return;
    }
    card_free::put_in(free, m);
}

// "Nodes cut out of the tree are free after the store that cuts them out": those before the first 0.
fn free_cut(state: &mut [u32])
    requires { length state.old ≡ state_words }
    ensures { state.new ≡ over state.old 11
        (words_of word_count (with_all (before_zero (part state.old 8 3)) (nodes_of (part state.old free_at word_count)))) }
{
    for i in 0..3 {
        let m = state[CUT + i] as usize;
        if m == 0 {
            return;
        }
        free_node(&mut state[FREE..PLACES], m);
    }
}

// They are cut out no more.
fn clear_cut(state: &mut [u32])
    requires { length state.old ≡ state_words }
    ensures { state.new ≡ over state.old 8 (0 ∷ 0 ∷ 0 ∷ []) }
{
    state[CUT..FREE].fill(0);
}

// The pair of an insert or a delete is counted in or out of its family's total.
#[tactic(auto, using(crate::proofs::PlayLaws::inserted_row, crate::proofs::PlayLaws::deleted_row, crate::proofs::PlayLaws::counted_none, crate::proofs::PlayLaws::totals_again))]
fn count_pair(state: &mut [u32])
    requires { length state.old ≡ state_words }
    ensures { state.new ≡ totalled state.old
        (settled_totals (doing_in (block_word state.old 2) (block_word state.old 3) (block_word state.old 4) 1)
        (part state.old totals_at family_count)) }
{
    let key = state[FIRST];
    match state[DOING] {
        INSERTING => card_family::count_in(&mut state[TOTALS..LINES], key),
        DELETING => card_family::count_out(&mut state[TOTALS..LINES], key),
        _ => {}
    }
}

// The last store of a first change decides its call, and its pair is in or out ("changed at the very step that puts a pair in or takes it
// out": document 02, W-204). Of anything else word 5 is not read, or says so already.
#[tactic(auto, using(crate::proofs::PlayLaws::settled_hand, crate::proofs::PlayLaws::settled_other))]
fn settle(state: &mut [u32])
    requires { length state.old ≡ state_words }
    ensures { state.new ≡ settled_block state.old }
{
    if state[THIRD] != IN_HAND {
        return;
    }
    state[THIRD] = DECIDED;
    count_pair(state);
}

// Whether a store of the plan is still to come after so many. A block may hold any numbers, so both ends are looked at.
#[tactic(auto, using(crate::proofs::PlayLaws::plan_full, crate::proofs::PlayLaws::plan_test))]
fn in_hand(state: &[u32], made: usize) -> bool
    requires { length state.now ≡ state_words }
    ensures { result
        ≡ more_to_store (drop made (stores_of (part state.now places_at 73) (part state.now values_at 73) (block_word state.now 7))) }
{
    if card::PLAN_SIZE <= made {
        return false;
    }
    made < wide(state[COUNT])
}

// Whether the next step makes a store of the change in hand.
#[tactic(auto, using(crate::proofs::ContractLaws::idle_stores, crate::proofs::ContractLaws::unknown_stores, crate::proofs::ContractLaws::held_stores))]
pub fn has_store(state: &[u32]) -> bool
    requires { length state.now ≡ state_words }
    ensures { result ≡ not (is_idle (memory_in state.now).doing) && more_to_store (memory_in state.now).rest }
{
    let doing = state[DOING];
    if doing == IDLE {
        return false;
    }
    if REPAIRING < doing {
        return false;
    }
    in_hand(state, wide(state[MADE]))
}

// The store of the plan after so many is made, in this place, and counted in the block; the answer is whether another is to come.
#[tactic(auto, using(crate::proofs::PlayLaws::value_stored))]
pub fn store_word(card: &mut [u32], state: &mut [u32], made: usize, at: usize) -> bool
    requires { (length state.old ≡ state_words) × (made < 73) × (at < length card.old) }
    ensures value { result ≡ more_to_store (drop (made + 1) (stores_of (part state.old places_at 73) (part state.old values_at 73) (block_word state.old 7))) }
    ensures card_after { card.new ≡ set card.old at (get_or (part state.old values_at 73) made 0) }
    ensures state_after { state.new ≡ set state.old 6 (made + 1) }
{
    card[at] = state[VALUES + made];
    let next = made + 1;
    state[MADE] = next as u32;
    in_hand(state, next)
}

// After the last store of a change: the nodes that it cut out are free, and a first change is decided. Both that make stores call it, so
// that a store before the last is made without its code.
pub fn end_change(state: &mut [u32])
    requires { length state.old ≡ state_words }
    ensures { state.new ≡ settled_block (over (over state.old 11
        (words_of word_count (with_all (before_zero (part state.old 8 3)) (nodes_of (part state.old free_at word_count))))) 8 (0 ∷ 0 ∷ 0 ∷ [])) }
{
    free_cut(state);
    clear_cut(state);
    settle(state);
}

// The next store of the plan, which has one; "or its store is outside the card": refused. The place is looked at before the store, so
// that a refusal stores nothing. The plan is that of the line's own table.
#[tactic(auto, using(crate::proofs::ContractLaws::next_below, crate::proofs::ContractLaws::next_in_block))]
pub fn store_next(card: &mut [u32], state: &mut [u32], line: u32) -> Result<Answer, Refusal>
    requires { (length state.old ≡ state_words) × (more_to_store (memory_in state.old).rest ≡ true)
        × HoldsTask (memory_in state.old).doing × (8 ≤ length card.old) × IsLine line }
    ensures { MadeOn line card.old state.old card.new state.new (told result)
        (step_store (seen line card.old) (memory_in state.old) (get_or (memory_in state.old).rest 0 (0, 0))
        (advanced (memory_in state.old) (drop 1 (memory_in state.old).rest))) }
{
    let made = wide(state[MADE]);
    let planned = state[PLACES + made];
    let place = card::on_line(line, planned);
    let at = wide(place);
    if card.len() <= at {
        return Err(Refusal::WrongNode);
    }
    if store_word(card, state, made, at) {
        return Ok(Answer::Stored(place));
    }
    end_change(state);
    Ok(Answer::Stored(place))
}
