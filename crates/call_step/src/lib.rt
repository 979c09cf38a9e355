// A step (document 01, "State, steps and free nodes"): "Each step then either stores one word or gives the final answer and makes the
// state idle." A card is a lent slice of words and a state a lent block of words; a step works on the block's own words.

#![tactic(auto)]

mod formatting;
mod planning;
mod playing;

ghost use Rattle.std.specs.Prelude.{◌≡◌, true, false};
ghost use Rattle.card.specs.Header.{Sized};
ghost use Rattle.card.specs.Lines.{IsLine};
ghost use Rattle.call_step.specs.Clauses.{StepCall};
ghost use Rattle.state.specs.Answer.{told};

use card::Refusal;
use formatting::step_format;
use planning::step_plan;
use playing::{has_store, store_next};
use state::Answer;
use state::block::{DOING, FORMATTING, NODES, STATE_WORDS, wide};

// The refusals of a step are looked at in the order of "Refusal by place"; "Formatting steps check only 1." What is in hand is of this
// line (document 02, W-207).
pub fn step(
    card: &mut [u32],
    state: &mut [u32],
    line: u32,
    greatest: usize,
) -> Result<Answer, Refusal>
    requires { IsLine line }
    ensures { StepCall greatest line card.old state.old card.new state.new (told result) }
{
    if state.len() != STATE_WORDS {
        return Err(Refusal::NoState);
    }
    let n = wide(state[NODES]);
    if !card::is_sized(card.len(), n, greatest) {
        return Err(Refusal::WrongLength);
    }
    if state[DOING] == FORMATTING {
        return Ok(step_format(card, state));
    }
    card::check_header(card, n)?;
    if has_store(state) {
        return store_next(card, state, line);
    }
    step_plan(card, state, line)
}
