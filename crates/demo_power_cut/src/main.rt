// A ration is put on a card, power goes in the middle of it, and the card is opened again: what the card then says.

#![tactic(auto)]

use table::STATE_WORDS;
use test_calls::{Block, make_steps};

// The words of a card with 6 nodes.
const LENGTH: usize = 152;

// Starts an insert and makes so many of its steps.
fn insert(card: &mut [u32], state: &mut Block, key: u32, value: u32, steps: u32) {
    let _ = table::start_insert(card, state, key, value);
    make_steps(card, state, steps);
}

// Rations 1 to 11, which fill the one leaf of a new table.
fn fill(card: &mut [u32], state: &mut Block) {
    for key in 1..12 {
        insert(card, state, key, 10 * key, 700);
    }
}

// Power is back: the card is opened and its repair, if there is one, is finished.
fn power_on(card: &mut [u32], state: &mut Block) {
    let _ = table::open(card, state);
    make_steps(card, state, 731);
}

// What the card says of a ration. Where a line can't be written the program goes on.
fn say(rt: &impl Print, card: &[u32], key: u32) {
    let _ = match table::find(card, key) {
        Ok(Some(value)) => println!(rt; "  ration {key}: dose record {value}"),
        Ok(None) => println!(rt; "  ration {key}: absent"),
        Err(refusal) => println!(rt; "  ration {key}: refused {}", refusal.number()),
    };
}

fn say_both(rt: &impl Print, card: &[u32]) {
    say(rt, card, 11);
    say(rt, card, 12);
}

fn main(rt: HostRuntime) {
    let mut card = [0; LENGTH];
    let mut state: Block = [0; STATE_WORDS];
    let _ = table::start_format(&card, &mut state);
    make_steps(&mut card, &mut state, 154);
    fill(&mut card, &mut state);
    let _ = println!(rt; "rations 1 to 11 are on the card");
    say_both(&rt, &card);
    insert(&mut card, &mut state, 12, 120, 40);
    let _ = println!(rt;
        "ration 12 is being put in; power goes after 40 of its 73 stores; power comes back"
    );
    power_on(&mut card, &mut state);
    say_both(&rt, &card);
    insert(&mut card, &mut state, 12, 120, 73);
    let _ = println!(rt;
        "ration 12 is being put in; power goes after the last of its 73 stores; power comes back"
    );
    power_on(&mut card, &mut state);
    say_both(&rt, &card);
}
