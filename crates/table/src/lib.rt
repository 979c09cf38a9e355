// The table: its calls (document 01, "State, steps and free nodes"). A card is a lent slice of words; a state is a lent block of
// words, and any words in it are some state. A block of another length is no state, and nothing is read or written. The calls below
// are those of the layers under this one for the greatest N that there is.

#![tactic(auto)]

ghost use Rattle.std.specs.Prelude.{◌≡◌, ◌≤◌};
ghost use Rattle.card.specs.Layout.{greatest_nodes, depth_limit};
ghost use Rattle.call_find.specs.Find.{find_of, find_depth};
ghost use Rattle.walk_next.specs.Successor.{next_of, next_depth};
ghost use Rattle.call_find.specs.Found.{told as found_told, lookup_told, depth_told as lookup_depth};
ghost use Rattle.walk_next.specs.Next.{told as pair_told, next_told, depth_told as next_depth_told};
ghost use Rattle.state.specs.Answer.{told as answer_told};
ghost use Rattle.state.specs.Begun.{told as begun_told};
ghost use Rattle.call_open.specs.Opening.{open_of};
ghost use Rattle.call_start.specs.Starts.{format_of, insert_of, delete_of};
ghost use Rattle.call_step.specs.Clauses.{StepCall};
ghost use Rattle.state.specs.Block.{memory_in};
ghost use Rattle.state.specs.Clauses.{OpenCall, StartCall};
ghost use Rattle.state.specs.declared.Doing.TheVariants.{Inserting, Deleting};
ghost use Rattle.state.specs.declared.Phase.TheVariants.{NotBegun};

pub use call_find::Lookup;
pub use card::Refusal;
use card::{FIRST_LINE, GREATEST_NODES};
pub use state::block::{STATE_WORDS, depth_kept, is_idle};
pub use state::{Answer, Begun, family_total};
pub use walk_next::{NextPair, Pair};

pub fn find_with_depth(card: &[u32], key: u32) -> Result<Lookup, Refusal>
    ensures found { lookup_told result ≡ find_of greatest_nodes 1 card.now key }
    ensures depth { lookup_depth result ≡ find_depth greatest_nodes 1 card.now key }
    ensures limit { lookup_depth result ≤ depth_limit }
{
    call_find::find_with_depth(card, FIRST_LINE, key, GREATEST_NODES)
}

pub fn find(card: &[u32], key: u32) -> Result<Option<u32>, Refusal>
    ensures { found_told result ≡ find_of greatest_nodes 1 card.now key }
{
    call_find::find(card, FIRST_LINE, key, GREATEST_NODES)
}

pub fn next_with_depth(card: &[u32], after: u32) -> Result<NextPair, Refusal>
    ensures next { next_told result ≡ next_of greatest_nodes 1 card.now after }
    ensures depth { next_depth_told result ≡ next_depth greatest_nodes 1 card.now after }
    ensures limit { next_depth_told result ≤ depth_limit }
{
    walk_next::next_with_depth(card, FIRST_LINE, after, GREATEST_NODES)
}

pub fn next_pair(card: &[u32], after: u32) -> Result<Option<Pair>, Refusal>
    ensures { pair_told result ≡ next_of greatest_nodes 1 card.now after }
{
    walk_next::next_pair(card, FIRST_LINE, after, GREATEST_NODES)
}

pub fn start_format(card: &[u32], state: &mut [u32]) -> Result<Begun, Refusal>
    ensures { OpenCall state.old state.new (begun_told result) (format_of greatest_nodes card.now) }
{
    call_start::start_format(card, state, GREATEST_NODES)
}

pub fn open(card: &[u32], state: &mut [u32]) -> Result<Begun, Refusal>
    ensures { OpenCall state.old state.new (begun_told result) (open_of greatest_nodes card.now) }
{
    call_open::open(card, state, GREATEST_NODES)
}

pub fn start_insert(card: &[u32], state: &mut [u32], key: u32, value: u32) -> Result<Begun, Refusal>
    ensures { StartCall state.old state.new (begun_told result) (Inserting key value NotBegun)
        (insert_of greatest_nodes 1 card.now (memory_in state.old) key value) }
{
    call_start::start_insert(card, state, FIRST_LINE, key, value, GREATEST_NODES)
}

pub fn start_delete(card: &[u32], state: &mut [u32], key: u32) -> Result<Begun, Refusal>
    ensures { StartCall state.old state.new (begun_told result) (Deleting key NotBegun 0)
        (delete_of greatest_nodes 1 card.now (memory_in state.old) key) }
{
    call_start::start_delete(card, state, FIRST_LINE, key, GREATEST_NODES)
}

pub fn step(card: &mut [u32], state: &mut [u32]) -> Result<Answer, Refusal>
    ensures { StepCall greatest_nodes 1 card.old state.old card.new state.new (answer_told result) }
{
    call_step::step(card, state, FIRST_LINE, GREATEST_NODES)
}
