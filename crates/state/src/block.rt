// The state as the words that a caller lends; every call works on these.
ghost use Rattle.std.specs.Prelude.{◌≡◌, ◌≤◌, true, ◌++◌, length, get_or, drop};
ghost use Rattle.card.specs.Layout.{greatest_nodes};
ghost use Rattle.card_family.specs.Families.{family_count};
ghost use Rattle.card_free.specs.NodeSet.{word_count, nodes_of};
ghost use Rattle.state.specs.Memory.{resting};
ghost use Rattle.state.specs.Steps.{is_idle, no_beginning};
ghost use Rattle.state.specs.Block.{free_at, totals_at, state_words, part, phase_in, phase_word, doing_in, head_in, memory_in, doing_words, head_words};
ghost use Rattle.state.specs.Blocks.{over, begun_block, resting_block};
ghost use Rattle.state.specs.Clauses.{Opened};
ghost use Rattle.state.specs.Begun.{told};
ghost use Rattle.card.specs.Refusals.{number};

use crate::{Begun, Doing, Phase, State};
use card::Refusal;

// The words of a block: N and the node given last; what is being done by its number, and its three numbers; the stores of the
// plan made and planned; the nodes that the last store cuts out; the free nodes; the plan's places and values; of the update begun
// last the internal nodes on its key's way then (document 02, W-203); the totals by family (W-204). Of a card with two lines (W-207) all
// that is of the line worked last; then that line's number, or 0 on a card with one; the free nodes that it may not use; the limits of
// the two lines, and the totals of the line at rest. The words after the 0 of a card with one line are nothing to it, and stay.
pub const NODES: usize = 0;

pub const LAST: usize = 1;

pub const DOING: usize = 2;

pub const FIRST: usize = 3;

pub const SECOND: usize = 4;

pub const THIRD: usize = 5;

pub const MADE: usize = 6;

pub const COUNT: usize = 7;

pub const CUT: usize = 8;

pub const FREE: usize = 11;

pub const PLACES: usize = FREE + card::FREE_WORDS;

pub const VALUES: usize = PLACES + card::PLAN_SIZE;

pub const DEPTH: usize = VALUES + card::PLAN_SIZE;

pub const TOTALS: usize = DEPTH + 1;

pub const LINES: usize = TOTALS + card_family::FAMILIES;

pub const BACK: usize = LINES + 1;

pub const FIRST_LIMIT: usize = LINES + 2;

pub const SECOND_LIMIT: usize = LINES + 3;

pub const REST_TOTALS: usize = LINES + 4;

// How many words that makes.
pub const STATE_WORDS: usize = REST_TOTALS + card_family::FAMILIES;

// The numbers of what is being done; any other number is idle.
pub const IDLE: u32 = 0;

pub const FORMATTING: u32 = 1;

pub const INSERTING: u32 = 2;

pub const DELETING: u32 = 3;

pub const REPAIRING: u32 = 4;

// The numbers of how far an insert or a delete is, in word 5; any other number is decided.
const NOT_BEGUN: u32 = 0;

pub const IN_HAND: u32 = 1;

pub const DECIDED: u32 = 2;

// A word as a number of the machine's own size: the calls' older form of `word as usize`.
pub fn wide(word: u32) -> usize
    ensures { result ≡ word }
{
    word as usize
}

// How far an insert or a delete is, by its word.
impl From<u32> for Phase {
    ghost from_gives = { λ word phase. phase ≡ phase_in word };

    #[tactic(auto, unfolding(crate::specs::Block::phase_in))]
    fn from(word: u32) -> Self {
        match word {
            NOT_BEGUN => Phase::NotBegun,
            IN_HAND => Phase::InHand,
            _ => Phase::Decided,
        }
    }
}

// The word for how far an insert or a delete is.
impl From<Phase> for u32 {
    ghost from_gives = { λ phase word. word ≡ phase_word phase };

    #[tactic(auto, unfolding(crate::specs::Block::phase_word))]
    fn from(phase: Phase) -> u32 {
        match phase {
            Phase::NotBegun => NOT_BEGUN,
            Phase::InHand => IN_HAND,
            Phase::Decided => DECIDED,
        }
    }
}

// "what is being done" by its number and three words.
impl From<[u32; 4]> for Doing {
    ghost from_gives = { λ words doing. doing ≡ doing_in (get_or words 0 0) (get_or words 1 0) (get_or words 2 0) (get_or words 3 0) };

    #[tactic(auto, unfolding(crate::specs::Block::doing_in))]
    fn from(words: [u32; 4]) -> Self {
        let [what, a, b, c] = words;
        match what {
            FORMATTING => Doing::Formatting { made: a },
            INSERTING => Doing::Inserting {
                key: a,
                value: b,
                phase: Phase::from(c),
            },
            DELETING => Doing::Deleting {
                key: a,
                phase: Phase::from(c),
                value: b,
            },
            REPAIRING => Doing::Repairing { key: a },
            _ => Doing::Idle,
        }
    }
}

// Words 2 to 5: what is being done, and its numbers.
impl From<Doing> for [u32; 4] {
    ghost from_gives = { λ doing words. words ≡ doing_words doing };

    #[tactic(auto, unfolding(crate::specs::Block::doing_words))]
    fn from(doing: Doing) -> [u32; 4] {
        match doing {
            Doing::Idle => [IDLE, 0, 0, 0],
            Doing::Formatting { made } => [FORMATTING, made, 0, 0],
            Doing::Inserting { key, value, phase } => [INSERTING, key, value, u32::from(phase)],
            Doing::Deleting { key, phase, value } => [DELETING, key, value, u32::from(phase)],
            Doing::Repairing { key } => [REPAIRING, key, 0, 0],
        }
    }
}

// Whether nothing is being done. Any number that is none of the four is idle, and in a block that is no state nothing is being done.
#[tactic(auto, unfolding(crate::specs::Block::memory_in, crate::specs::Block::doing_in, crate::specs::Steps::is_idle))]
pub fn is_idle(state: &[u32]) -> bool
    ensures of_state { length state.now ≡ state_words → result ≡ is_idle (memory_in state.now).doing }
    ensures of_no_state { (length state.now ≡ state_words → ⊥) → result ≡ true }
{
    state.len() != STATE_WORDS || state[DOING] == IDLE || REPAIRING < state[DOING]
}

// The internal nodes on the key's way of the update begun last, as it was then (document 02, W-203). A block that is no state has none.
#[tactic(auto, unfolding(crate::specs::Block::memory_in))]
pub fn depth_kept(state: &[u32]) -> u32
    ensures of_state { length state.now ≡ state_words → result ≡ (memory_in state.now).depth }
    ensures of_no_state { (length state.now ≡ state_words → ⊥) → result ≡ 0 }
{
    if state.len() == STATE_WORDS {
        state[DEPTH]
    } else {
        0
    }
}

// Words 0 to 10: the state but its free nodes and rows, whatever the words are.
#[tactic(auto, using(crate::proofs::Blocks::head_read))]
pub fn head_in(block: &[u32]) -> State
    requires { length block.now ≡ state_words }
    ensures { result ≡ head_in block.now }
{
    State {
        nodes: block[NODES],
        last: block[LAST],
        doing: Doing::from([block[DOING], block[FIRST], block[SECOND], block[THIRD]]),
        made: block[MADE],
        count: block[COUNT],
        cut: [block[CUT], block[CUT + 1], block[CUT + 2]],
    }
}

// Something else is being done: words 2 to 5 are stored.
pub fn store_doing(block: &mut [u32], doing: Doing)
    requires { length block.old ≡ state_words }
    ensures { block.new ≡ begun_block block.old doing }
{
    block[DOING..MADE].copy_from_slice(&<[u32; 4]>::from(doing));
}

// Words 0 to 10 are stored.
pub fn store_head(block: &mut [u32], state: State)
    requires { length block.old ≡ state_words }
    ensures { block.new ≡ head_words state ++ drop 11 block.old }
{
    block[NODES] = state.nodes;
    block[LAST] = state.last;
    store_doing(block, state.doing);
    block[MADE] = state.made;
    block[COUNT] = state.count;
    block[CUT..FREE].copy_from_slice(&state.cut);
}

// The totals by family are stored.
pub fn store_totals(block: &mut [u32], totals: &[u32])
    requires { (length block.old ≡ state_words) × (length totals.now ≡ family_count) }
    ensures { block.new ≡ over block.old totals_at totals.now }
{
    block[TOTALS..LINES].copy_from_slice(totals);
}

// Nothing is planned in a block for N nodes of a card with one line, whose words of the free nodes and of the totals are right already.
// The search for a free node begins after `last`, the node taken for given last.
pub fn store_resting(block: &mut [u32], n: usize, last: u32, doing: Doing)
    requires { (length block.old ≡ state_words) × (n ≤ greatest_nodes) }
    ensures words_after { block.new ≡ resting_block block.old (resting n (nodes_of (part block.old free_at word_count)) last
        (part block.old totals_at family_count) doing) }
    ensures memory_after { memory_in block.new ≡ resting n (nodes_of (part block.old free_at word_count)) last
        (part block.old totals_at family_count) doing }
{
    block[LINES] = 0;
    block[NODES] = n as u32;
    block[LAST] = last;
    store_doing(block, doing);
    block[MADE..FREE].fill(0);
    block[PLACES..TOTALS].fill(0);
}

// "Opening or starting to format, refused, hands back an idle state for N = 0".
pub fn refuse_beginning(block: &mut [u32], refusal: Refusal) -> Result<Begun, Refusal>
    requires { length block.old ≡ state_words }
    ensures { Opened block.old block.new (told result) (no_beginning (number refusal)) }
{
    block[..BACK].fill(0);
    Err(refusal)
}
