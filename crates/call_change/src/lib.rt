// "Insert" and "Delete" of document 01, "The changes": what the next step of a task decides. Nothing is laid out here: a decision is a
// small value, and neither the free nodes nor the rows of a plan are seen.

#![tactic(auto)]

ghost use Rattle.std.specs.Prelude.{◌≡◌, ℕ, length};
ghost use Rattle.card.specs.Layout.{greatest_nodes};
ghost use Rattle.card.specs.Header.{Sized};
ghost use Rattle.card.specs.Lines.{IsLine, seen};
ghost use Rattle.walk.specs.Descent.{slot_of};
ghost use Rattle.state.specs.declared.Task.TheVariants.{PutIn, TakeOut};
ghost use Rattle.call_change.specs.Updates.{landing, empty_reason, insert_reason};
ghost use Rattle.call_change.specs.Decided.{placed, insert_decided, delete_decided, decided};
ghost use Rattle.call_change.specs.Results.{Arrives};

use change_decide::{Decision, next_repair};
use state::{Answer, Doing, Phase, Task};
use walk::End;

// "A splitting insert needs j + 5 free nodes": those that it needs beyond j. The only place in code where the number stands.
pub const SPLIT_NEED: usize = 5;

// What the next step of a task decides, what is then being done, and the final answer where there is nothing to change.
#[derive(Clone, Copy)]
pub struct First {
    pub doing: Doing,
    pub answer: Answer,
    pub decision: Decision,
}

// The pair goes into "the lowest empty slot", or "Leaf full: the 12 pairs go 6 and 6 into two leaves".
#[tactic(auto, unfolding(crate::specs::Decided::placed, crate::specs::Updates::empty_reason))]
fn place_new(leaf: &[u32], node: usize, link: usize, key: u32, value: u32) -> Decision
    requires { length leaf.now ≡ 24 }
    ensures { result ≡ placed key value node link (empty_reason (slot_of leaf.now 0)) }
{
    match walk::find_slot(leaf, 0) {
        Some(slot) => Decision::PutPair {
            node,
            slot,
            key,
            value,
        },
        None => Decision::SplitLeaf {
            node,
            link,
            key,
            value,
        },
    }
}

// "Insert, key held: answers the held value, no store."
#[tactic(auto, using(walk::proofs::DescentLaws::slot_below))]
fn insert_in(leaf: &[u32], node: usize, link: usize, key: u32, value: u32) -> First
    requires { length leaf.now ≡ 24 }
    ensures { result ≡ insert_decided key value node link (insert_reason leaf.now key) }
{
    let doing = Doing::Inserting {
        key,
        value,
        phase: Phase::InHand,
    };
    match walk::find_slot(leaf, key) {
        Some(i) => First {
            doing,
            answer: Answer::Value(leaf[card::VALUES + i]),
            decision: Decision::Balanced,
        },
        None => First {
            doing,
            answer: Answer::Absent,
            decision: place_new(leaf, node, link, key, value),
        },
    }
}

// "Delete: key word to 0, answers the value; absent and no store if not held."
#[tactic(auto, using(walk::proofs::DescentLaws::slot_below), unfolding(crate::specs::Decided::delete_decided))]
fn delete_in(leaf: &[u32], node: usize, key: u32) -> First
    requires { length leaf.now ≡ 24 }
    ensures { result ≡ delete_decided key node leaf.now (slot_of leaf.now key) }
{
    match walk::find_slot(leaf, key) {
        Some(slot) => {
            let value = leaf[card::VALUES + slot];
            First {
                doing: Doing::Deleting {
                    key,
                    phase: Phase::InHand,
                    value,
                },
                answer: Answer::Value(value),
                decision: Decision::ClearKey { node, slot },
            }
        }
        None => First {
            doing: Doing::Deleting {
                key,
                phase: Phase::InHand,
                value: 0,
            },
            answer: Answer::Absent,
            decision: Decision::Balanced,
        },
    }
}

// Where the way of an update's key ends: its leaf and the word that links to it.
#[derive(Clone, Copy)]
pub struct Arrival {
    pub node: usize,
    pub link: usize,
}

// The leaf that an update's key leads to in a line's table; none is refusal 9. The walk is asked for no violation, so it stops at none.
fn arrive(card: &[u32], n: usize, line: u32, key: u32) -> Option<Arrival>
    requires { Sized greatest_nodes (length card.now) n × IsLine line }
    ensures { Arrives result (landing (seen line card.now) n key) }
{
    let End::Leaf { position, .. } = walk::descend(card, n, key, card::root_of(card, line), false)
    else {
        return None;
    };
    Some(Arrival {
        node: position.node,
        link: position.link,
    })
}

// The first change of an insert, in the leaf that its key leads to; "on the way down": refused, the step is refused too.
fn put_in(card: &[u32], n: usize, line: u32, doing: Doing, key: u32, value: u32) -> First
    requires { Sized greatest_nodes (length card.now) n × IsLine line }
    ensures { result ≡ decided (seen line card.now) n doing (PutIn key value) }
{
    let Some(leaf) = arrive(card, n, line, key) else {
        return First {
            doing,
            answer: Answer::Absent,
            decision: Decision::Refused,
        };
    };
    insert_in(
        card::node_at(card, leaf.node),
        leaf.node,
        leaf.link,
        key,
        value,
    )
}

// The first change of a delete, in the leaf that its key leads to.
fn take_out(card: &[u32], n: usize, line: u32, doing: Doing, key: u32) -> First
    requires { Sized greatest_nodes (length card.now) n × IsLine line }
    ensures { result ≡ decided (seen line card.now) n doing (TakeOut key) }
{
    let Some(leaf) = arrive(card, n, line, key) else {
        return First {
            doing,
            answer: Answer::Absent,
            decision: Decision::Refused,
        };
    };
    delete_in(card::node_at(card, leaf.node), leaf.node, key)
}

// What the next step of a task decides in a line's table, for a state that is doing this. "Repairs go on until balanced", and then the answer is given.
#[tactic(auto, unfolding(crate::specs::Decided::decided))]
pub fn next_change(card: &[u32], n: usize, line: u32, doing: Doing, task: Task) -> First
    requires { Sized greatest_nodes (length card.now) n × IsLine line }
    ensures { result ≡ decided (seen line card.now) n doing task }
{
    match task {
        Task::PutIn { key, value } => put_in(card, n, line, doing, key, value),
        Task::TakeOut { key } => take_out(card, n, line, doing, key),
        Task::Repair { key, answer } => First {
            doing,
            answer,
            decision: next_repair(card, n, line, key),
        },
    }
}
