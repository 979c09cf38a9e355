// The table and its dumps, for C and Rust to call: each call is the table's own, with its answer in four words.

#![tactic(auto)]

ghost use Rattle.std.specs.Prelude.{◌≡◌, false, length};
ghost use Rattle.card.specs.Layout.{greatest_nodes};
ghost use Rattle.card_dump.specs.Dump.{read_answer, read_over, write_answer, write_over};
ghost use Rattle.card_dump.specs.Answers.{dump_reply};
ghost use Rattle.call_find.specs.Answers.{found_reply};
ghost use Rattle.card.specs.Replies.{with_depth};
ghost use Rattle.call_find.specs.Find.{find_of, find_depth};
ghost use Rattle.walk_next.specs.Successor.{next_of, next_depth, next_reply};
ghost use Rattle.call_open.specs.Opening.{open_of};
ghost use Rattle.call_start.specs.Starts.{format_of, insert_of, delete_of};
ghost use Rattle.state.specs.Answers.{start_reply, step_reply, told_depth, total_reply};
ghost use Rattle.state.specs.declared.Doing.TheVariants.{Inserting, Deleting};
ghost use Rattle.state.specs.declared.Phase.TheVariants.{NotBegun};
ghost use Rattle.state.specs.Clauses.{OpenCall, StartCall, TotalCall};
ghost use Rattle.call_step.specs.Clauses.{StepCall};
ghost use Rattle.state.specs.Block.{memory_in};
ghost use Rattle.ration_table.specs.Clauses.{Replies, numbered};
ghost use Rattle.c_replies.specs.ReplyWords.{reply_of};

pub use c_replies::Reply;
use c_replies::{
    dump_reply, found_reply, next_reply, start_reply, step_reply, total_reply, with_depth,
};
use card::Refusal;

// An answer with its refusal as a number: "A refusal gives its number".
fn numbered<A: Drop>(answer: Result<A, Refusal>) -> Result<A, u32>
    ensures { result ≡ numbered answer }
{
    answer.map_err(Refusal::number)
}

// "A find is one call on the card alone".
#[unsafe(no_mangle)]
pub extern "C" fn ration_find(card: &[u32], key: u32) -> Reply
    ensures { reply_of result ≡ with_depth (find_depth greatest_nodes 1 card.now key) (found_reply (find_of greatest_nodes 1 card.now key)) }
{
    match table::find_with_depth(card, key) {
        Ok(lookup) => with_depth(found_reply(Ok(lookup.found)), lookup.depth as u32),
        Err(refusal) => found_reply(Err(refusal.number())),
    }
}

// "It reads the card only, like a find, and may come between steps."
#[unsafe(no_mangle)]
pub extern "C" fn ration_next(card: &[u32], after: u32) -> Reply
    ensures { reply_of result ≡ with_depth (next_depth greatest_nodes 1 card.now after) (next_reply (next_of greatest_nodes 1 card.now after)) }
{
    match table::next_with_depth(card, after) {
        Ok(next) => with_depth(next_reply(Ok(next.pair)), next.depth as u32),
        Err(refusal) => next_reply(Err(refusal.number())),
    }
}

// "Formatting needs no earlier state".
#[unsafe(no_mangle)]
pub extern "C" fn ration_start_format(card: &[u32], state: &mut [u32]) -> Reply
    ensures { Replies start_reply (reply_of result) (λ begun. OpenCall state.old state.new begun (format_of greatest_nodes card.now)) }
{
    start_reply(numbered(table::start_format(card, state)))
}

// "Opening stores nothing".
#[unsafe(no_mangle)]
pub extern "C" fn ration_open(card: &[u32], state: &mut [u32]) -> Reply
    ensures { Replies start_reply (reply_of result) (λ begun. OpenCall state.old state.new begun (open_of greatest_nodes card.now)) }
{
    start_reply(numbered(table::open(card, state)))
}

// "Starting an update stores nothing."
#[unsafe(no_mangle)]
pub extern "C" fn ration_start_insert(
    card: &[u32],
    state: &mut [u32],
    key: u32,
    value: u32,
) -> Reply
    ensures { Replies start_reply (reply_of result) (λ begun. StartCall state.old state.new begun
        (Inserting key value NotBegun) (insert_of greatest_nodes 1 card.now (memory_in state.old) key value)) }
{
    start_reply(numbered(table::start_insert(card, state, key, value)))
}

// The same for a delete.
#[unsafe(no_mangle)]
pub extern "C" fn ration_start_delete(card: &[u32], state: &mut [u32], key: u32) -> Reply
    ensures { Replies start_reply (reply_of result) (λ begun. StartCall state.old state.new begun
        (Deleting key NotBegun 0) (delete_of greatest_nodes 1 card.now (memory_in state.old) key)) }
{
    start_reply(numbered(table::start_delete(card, state, key)))
}

// "Each step then either stores one word or gives the final answer and makes the state idle." The final answer of an insert or a delete
// tells the depth that was kept at its start, which no step changes.
#[unsafe(no_mangle)]
pub extern "C" fn ration_step(card: &mut [u32], state: &mut [u32]) -> Reply
    ensures { Replies (λ answer. with_depth (told_depth (memory_in state.new).depth answer) (step_reply answer)) (reply_of result)
        (λ answer. StepCall greatest_nodes 1 card.old state.old card.new state.new answer) }
{
    let answer = table::step(card, state);
    step_reply(numbered(answer), state)
}

// "One question answers a family's total".
#[unsafe(no_mangle)]
pub extern "C" fn ration_family_total(state: &[u32], family: u32) -> Reply
    ensures { Replies total_reply (reply_of result) (λ total. TotalCall state.now family total) }
{
    total_reply(numbered(table::family_total(state, family)))
}

// "Reading a dump checks 11, 12".
#[unsafe(no_mangle)]
pub extern "C" fn ration_read_dump(dump: &[u8], words: &mut [u32]) -> Reply
    ensures result_value { reply_of result ≡ dump_reply (read_answer greatest_nodes dump.now (length words.old)) }
    ensures words_after { words.new ≡ read_over greatest_nodes dump.now words.old }
{
    let answer = card_dump::read_dump(dump, words, card::GREATEST_NODES);
    dump_reply(numbered(answer))
}

// "writing one checks 1, 2, 3, 12".
#[unsafe(no_mangle)]
pub extern "C" fn ration_write_dump(card: &[u32], bytes: &mut [u8]) -> Reply
    ensures result_value { reply_of result ≡ dump_reply (write_answer greatest_nodes card.now (length bytes.old)) }
    ensures bytes_after { bytes.new ≡ write_over greatest_nodes card.now bytes.old }
{
    let answer = card_dump::write_dump(card, bytes, card::GREATEST_NODES);
    dump_reply(numbered(answer))
}
