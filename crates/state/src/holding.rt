// What is still to be done, by what a state is doing.
ghost use Rattle.std.specs.Prelude.{◌≡◌};
ghost use Rattle.state.specs.Steps.{held_by};
ghost use Rattle.state.specs.declared.Doing.TheVariants.{Inserting, Deleting};

use crate::{Answer, Doing, Held, Phase, Task};

// What an insert has still to do: its first change, or repairs. "Key absent: answers absent once done."
#[tactic(auto, unfolding(crate::specs::Steps::held_by))]
fn held_insert(key: u32, value: u32, phase: Phase) -> Held
    ensures { result ≡ held_by (Inserting key value phase) }
{
    match phase {
        Phase::NotBegun => Held::Task(Task::PutIn { key, value }),
        Phase::InHand | Phase::Decided => Held::Task(Task::Repair {
            key,
            answer: Answer::Absent,
        }),
    }
}

// What a delete has still to do: "key word to 0, answers the value".
#[tactic(auto, unfolding(crate::specs::Steps::held_by))]
fn held_delete(key: u32, phase: Phase, value: u32) -> Held
    ensures { result ≡ held_by (Deleting key phase value) }
{
    match phase {
        Phase::NotBegun => Held::Task(Task::TakeOut { key }),
        Phase::InHand | Phase::Decided => Held::Task(Task::Repair {
            key,
            answer: Answer::Value(value),
        }),
    }
}

// What a state holds that is doing this. The repair of opening ends in "ready".
#[tactic(auto, unfolding(crate::specs::Steps::held_by))]
pub fn held_by(doing: Doing) -> Held
    ensures { result ≡ held_by doing }
{
    match doing {
        Doing::Idle => Held::Nothing,
        Doing::Formatting { made } => Held::Formatting(made),
        Doing::Inserting { key, value, phase } => held_insert(key, value, phase),
        Doing::Deleting { key, phase, value } => held_delete(key, phase, value),
        Doing::Repairing { key } => Held::Task(Task::Repair {
            key,
            answer: Answer::Ready,
        }),
    }
}
