// The state (document 01, "State, steps and free nodes"): what is being done, what is answered, and the words that hold a state.

#![tactic(auto)]

pub mod block;
mod families;
mod holding;

pub use families::family_total;
pub use holding::held_by;

// How far an insert or a delete is: its first change is not begun; it is in hand; it is made, which decides the call, so that
// repairs are left.
#[derive(Clone, Copy)]
pub enum Phase {
    NotBegun,
    InHand,
    Decided,
}

// What is being done: "either idle or holds one call or repair in progress". Formatting counts as a call.
#[derive(Clone, Copy)]
pub enum Doing {
    Idle,
    // how many stores were made
    Formatting { made: u32 },
    // the pair to put in, and how far that is
    Inserting { key: u32, value: u32, phase: Phase },
    // the key to take out, how far that is, and the value taken out
    Deleting { key: u32, phase: Phase, value: u32 },
    // a key that leads to the violation
    Repairing { key: u32 },
}

// What is to be changed next: an insert's or a delete's first change, or what is still to be repaired on a key's way, after which
// the call or repair answers.
#[derive(Clone, Copy)]
pub enum Task {
    PutIn { key: u32, value: u32 },
    TakeOut { key: u32 },
    Repair { key: u32, answer: Answer },
}

// What a state holds: nothing, a formatting with so many stores made, or a task.
#[derive(Clone, Copy)]
pub enum Held {
    Nothing,
    Formatting(u32),
    Task(Task),
}

// "The state is held off the card and lost with power: N, the free nodes, the node given last, and what is being done." The free nodes
// and the two rows of the change in hand are lent beside it; so many of its stores are made, and the last cuts the nodes of `cut` out.
#[derive(Clone, Copy)]
pub struct State {
    pub nodes: u32,
    pub last: u32,
    pub doing: Doing,
    pub made: u32,
    pub count: u32,
    pub cut: [u32; 3],
}

// What a step answers that is not refused: a word was stored, in this place, or the final answer of what was being done.
#[derive(Clone, Copy, Debug, PartialEq, Eq)]
pub enum Answer {
    Stored(u32),
    Ready,
    Absent,
    Value(u32),
}

// What opening and starting answer that are not refused.
#[derive(Clone, Copy, Debug, PartialEq, Eq)]
pub enum Begun {
    Idle,
    Started,
}
