// The steps that have no store left to make: a new change is decided, its nodes are given, it is laid out in the block's rows, and its
// first store is made; or the final answer is given.
ghost use Rattle.std.specs.Prelude.{◌≡◌, false, not, ◌&&◌, [], ℕ, length, take};
ghost use Rattle.std.proofs.Math.Option.{some};
ghost use Rattle.card.specs.Layout.{greatest_nodes};
ghost use Rattle.card.specs.Header.{header_refusal, Sized};
ghost use Rattle.card.specs.Lines.{IsLine, seen};
ghost use Rattle.card_free.specs.NodeSet.{word_count, nodes_of};
ghost use Rattle.change_decide.specs.Places.{Fits};
ghost use Rattle.change_layout.specs.LayOut.{needed, store_count, outcome_of, size_of, words_by, lay_out};
ghost use Rattle.change_plan.specs.Planning.{take_numbers};
ghost use Rattle.change_plan.specs.declared.Outcome.TheVariants.{Prepared};
ghost use Rattle.state.specs.Steps.{is_idle, held_by};
ghost use Rattle.state.specs.Results.{more_to_store};
ghost use Rattle.state.specs.Block.{free_at, state_words, block_word, part, memory_in};
ghost use Rattle.state.specs.Answer.{Answer as Told, told};
ghost use Rattle.state.specs.declared.Held.TheVariants.{Task as HeldTask};
ghost use Rattle.call_step.specs.Calls.{step_prepared, step_task, step_held};
ghost use Rattle.call_step.specs.StepBlocks.{planned_over};
ghost use Rattle.call_step.specs.Clauses.{StepMade, MadeOn, Changes};

use crate::playing::{end_change, finish, store_word};
use call_change::next_change;
use card::Refusal;
use change_decide::Decision;
use change_layout::{Size, cut_of, lay_places, lay_values, size_of};
use change_plan::Outcome;
use change_plan::numbers::{give, take};
use state::block::{DEPTH, FREE, LAST, NODES, PLACES, VALUES, head_in, store_head, wide};
use state::{Answer, Doing, Held, State, Task, held_by};

// The change is planned in the block: its stores over the nodes given, which are free no longer, and what it will cut out.
fn plan(
    card: &[u32],
    state: &mut [u32],
    doing: Doing,
    decision: Decision,
    size: Size,
    nodes: [u32; 3],
)
    requires { (length state.old ≡ state_words) × Fits card.now decision × (size ≡ size_of decision)
        × (take_numbers (needed decision) (nodes_of (part state.old free_at word_count)) (block_word state.old 1) ≡ some (take (needed decision) nodes)) }
    ensures { (state.new ≡ planned_over card.now state.old doing decision nodes)
        × (length (words_by card.now decision nodes) ≡ store_count decision) }
{
    lay_places(decision, nodes, &mut state[PLACES..VALUES]);
    lay_values(card, decision, nodes, &mut state[VALUES..DEPTH]);
    let before = state[LAST];
    let last = take(&mut state[FREE..PLACES], nodes, size.nodes, before);
    let head = State {
        nodes: state[NODES],
        last,
        doing,
        made: 0,
        count: size.stores,
        cut: cut_of(card, decision),
    };
    store_head(state, head);
}

// A change: its nodes are given, "or too few free nodes", and the first of its stores is made. "or its store is outside the card": the
// first word of its first node can be, where a state holds a bit for a node that the card has not. Both are looked at before a word of
// the block is changed, so that a refusal hands the state back unchanged. The first store is in a node, and so in the same place for
// each line.
fn step_change(
    card: &mut [u32],
    state: &mut [u32],
    doing: Doing,
    decision: Decision,
    size: Size,
) -> Result<Answer, Refusal>
    requires { (length state.old ≡ state_words) × Sized greatest_nodes (length card.old) (block_word state.old 0)
        × Fits card.old decision × (outcome_of decision ≡ Prepared) × (size ≡ size_of decision) }
    ensures { (line : ℕ) → Changes (seen line card.old) state.old doing decision → (final : Told)
        → MadeOn line card.old state.old card.new state.new (told result)
        (step_prepared (seen line card.old) (memory_in state.old) doing final
        (lay_out (seen line card.old) decision (memory_in state.old).free (memory_in state.old).last)) }
{
    let Some(nodes) = give(&state[FREE..PLACES], wide(state[LAST]), size.nodes) else {
        return Err(Refusal::WrongNode);
    };
    if state[NODES] < nodes[0] {
        return Err(Refusal::WrongNode);
    }
    plan(card, state, doing, decision, size, nodes);
    let place = state[PLACES];
    if store_word(card, state, 0, wide(place)) {
        return Ok(Answer::Stored(place));
    }
    end_change(state);
    Ok(Answer::Stored(place))
}

// The next change of a task: by what is decided refused, the final answer, or a change.
fn step_task(
    card: &mut [u32],
    state: &mut [u32],
    line: u32,
    doing: Doing,
    task: Task,
) -> Result<Answer, Refusal>
    requires { (length state.old ≡ state_words) × Sized greatest_nodes (length card.old) (block_word state.old 0)
        × (doing ≡ (memory_in state.old).doing) × (held_by (memory_in state.old).doing ≡ HeldTask task) × ((memory_in state.old).rest ≡ []) × IsLine line }
    ensures { MadeOn line card.old state.old card.new state.new (told result)
        (step_task (seen line card.old) (memory_in state.old) task []) }
{
    let next = next_change(card, wide(state[NODES]), line, doing, task);
    let then = next.doing;
    let answer = next.answer;
    let decision = next.decision;
    let size = size_of(decision);
    let outcome = size.outcome;
    match outcome {
        Outcome::Refused => Err(Refusal::WrongNode),
        Outcome::Balanced => {
            finish(state);
            Ok(answer)
        }
        Outcome::Prepared => step_change(card, state, then, decision, size),
    }
}

// A step that has no store left to make, nor formats: "10: state idle", or the next change of the task.
#[tactic(auto, using(crate::proofs::StepLaws::head_doing, crate::proofs::StepLaws::head_task, crate::proofs::StepLaws::head_rest, crate::proofs::StepLaws::plans_nothing))]
pub fn step_plan(card: &mut [u32], state: &mut [u32], line: u32) -> Result<Answer, Refusal>
    requires { (length state.old ≡ state_words) × Sized greatest_nodes (length card.old) (block_word state.old 0)
        × (header_refusal card.old (block_word state.old 0) ≡ 0) × (block_word state.old 2 ≡ 1 → ⊥)
        × (not (is_idle (memory_in state.old).doing) && more_to_store (memory_in state.old).rest ≡ false) × IsLine line }
    ensures { StepMade (seen line card.old) state.old card.new state.new (told result)
        (step_held line card.old (memory_in state.old) (held_by (memory_in state.old).doing)) }
{
    let head = head_in(state);
    let doing = head.doing;
    let Held::Task(task) = held_by(doing) else {
        return Err(Refusal::Idle);
    };
    step_task(card, state, line, doing, task)
}
