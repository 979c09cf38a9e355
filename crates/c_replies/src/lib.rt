// The answers of the calls in four words, for C: a number for the answer and, where it has them, a value, a key and a depth. A refusal is
// handed on as its number, and any number is taken.

#![tactic(auto)]

ghost use Rattle.std.specs.Prelude.{◌≡◌};
ghost use Rattle.card.specs.Replies.{plain, valued, next, with_depth};
ghost use Rattle.call_find.specs.Answers.{found_reply};
ghost use Rattle.state.specs.Answers.{step_reply, told_depth, start_reply, total_reply};
ghost use Rattle.card_dump.specs.Answers.{dump_reply};
ghost use Rattle.walk_next.specs.Successor.{next_reply};
ghost use Rattle.c_replies.specs.Told.{found_told, next_told, answer_told, begun_told, total_told, dump_told};
ghost use Rattle.c_replies.specs.ReplyWords.{reply_of, kept_depth, ShortDump};

use state::block::depth_kept;
use state::{Answer, Begun};
use walk_next::Pair;

#[repr(C)]
#[derive(Clone, Copy)]
pub struct Reply {
    pub code: u32,
    pub value: u32,
    pub key: u32,
    pub depth: u32,
}

// The answers that have no number in document 01: the value held under a key, "absent", one word stored in a place, "ready", an
// idle state opened, a call or repair in progress, and the length of a dump's result; of document 02, W-201, a pair and "none",
// and W-204, what a family holds.
const VALUE: u32 = 64;

const ABSENT: u32 = 65;

const STORED: u32 = 66;

const READY: u32 = 67;

const IDLE: u32 = 68;

const STARTED: u32 = 69;

const LENGTH: u32 = 70;

const NEXT: u32 = 72;

const NONE: u32 = 73;

const TOTAL: u32 = 75;

// An answer with a value beside it.
fn valued(code: u32, value: u32) -> Reply
    ensures { reply_of result ≡ valued code value }
{
    Reply {
        code,
        value,
        key: 0,
        depth: 0,
    }
}

// "A refusal gives its number"; the same for every answer that has no value beside it.
fn plain(code: u32) -> Reply
    ensures { reply_of result ≡ plain code }
{
    valued(code, 0)
}

// A pair.
fn next(key: u32, value: u32) -> Reply
    ensures { reply_of result ≡ next key value }
{
    Reply {
        code: NEXT,
        value,
        key,
        depth: 0,
    }
}

// The same answer with the depth beside it: how many internal nodes the look-up passed (document 02, W-203).
pub fn with_depth(reply: Reply, depth: u32) -> Reply
    ensures { reply_of result ≡ with_depth depth (reply_of reply) }
{
    Reply {
        code: reply.code,
        value: reply.value,
        key: reply.key,
        depth,
    }
}

#[tactic(auto, unfolding(call_find::specs::Answers::found_reply))]
pub fn found_reply(found: Result<Option<u32>, u32>) -> Reply
    ensures { reply_of result ≡ found_reply (found_told found) }
{
    match found {
        Ok(Some(value)) => valued(VALUE, value),
        Ok(None) => plain(ABSENT),
        Err(refusal) => plain(refusal),
    }
}

// The final answers of an insert or a delete have the depth beside them that the state handed back keeps. It is read for these alone: read
// before each step it took five instructions of every store.
#[tactic(auto, unfolding(state::specs::Answers::step_reply, state::specs::Answers::told_depth))]
pub fn step_reply(answer: Result<Answer, u32>, state: &[u32]) -> Reply
    ensures { reply_of result ≡ with_depth (told_depth (kept_depth state.now) (answer_told answer)) (step_reply (answer_told answer)) }
{
    match answer {
        Ok(Answer::Stored(place)) => valued(STORED, place),
        Ok(Answer::Ready) => plain(READY),
        Ok(Answer::Absent) => with_depth(plain(ABSENT), depth_kept(state)),
        Ok(Answer::Value(value)) => with_depth(valued(VALUE, value), depth_kept(state)),
        Err(refusal) => plain(refusal),
    }
}

#[tactic(auto, unfolding(state::specs::Answers::start_reply))]
pub fn start_reply(begun: Result<Begun, u32>) -> Reply
    ensures { reply_of result ≡ start_reply (begun_told begun) }
{
    match begun {
        Ok(Begun::Idle) => plain(IDLE),
        Ok(Begun::Started) => plain(STARTED),
        Err(refusal) => plain(refusal),
    }
}

// "One question answers a family's total".
#[tactic(auto, unfolding(state::specs::Answers::total_reply))]
pub fn total_reply(total: Result<u32, u32>) -> Reply
    ensures { reply_of result ≡ total_reply (total_told total) }
{
    match total {
        Ok(pairs) => valued(TOTAL, pairs),
        Err(refusal) => plain(refusal),
    }
}

// "The answer is the result's length in words or bytes".
#[tactic(auto, unfolding(card_dump::specs::Answers::dump_reply))]
pub fn dump_reply(answer: Result<usize, u32>) -> Reply
    requires { ShortDump (dump_told answer) }
    ensures { reply_of result ≡ dump_reply (dump_told answer) }
{
    match answer {
        Ok(length) => valued(LENGTH, length as u32),
        Err(refusal) => plain(refusal),
    }
}

// "the pair with the smallest key greater than it, or none"
#[tactic(auto, unfolding(walk_next::specs::Successor::next_reply))]
pub fn next_reply(successor: Result<Option<Pair>, u32>) -> Reply
    ensures { reply_of result ≡ next_reply (next_told successor) }
{
    match successor {
        Ok(Some(pair)) => next(pair.key, pair.value),
        Ok(None) => plain(NONE),
        Err(refusal) => plain(refusal),
    }
}
