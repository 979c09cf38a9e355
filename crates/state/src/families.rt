// The question for a family's total (document 02, W-204).
ghost use Rattle.state.specs.Clauses.{TotalCall};
ghost use Rattle.state.specs.Total.{told};

use crate::block::{STATE_WORDS, TOTALS};
use card::Refusal;
use card_family::FAMILIES;

// "One question answers a family's total"; "13: family above 15; that question checks nothing else." A block that is no state has none.
#[tactic(auto, unfolding(crate::specs::Answers::total_of, crate::specs::Block::memory_in))]
pub fn family_total(state: &[u32], family: u32) -> Result<u32, Refusal>
    ensures { TotalCall state.now family (told result) }
{
    if state.len() != STATE_WORDS {
        return Err(Refusal::NoState);
    }
    let family = family as usize;
    if FAMILIES <= family {
        return Err(Refusal::WrongFamily);
    }
    Ok(state[TOTALS + family])
}
