// Opening: "works out the free nodes, and hands back an idle state, or one with the repair in progress".

#![tactic(auto)]

ghost use Rattle.std.specs.Prelude.{◌≡◌, ◌+◌, ◌*◌, ◌≤◌, length};
ghost use Rattle.card.specs.Layout.{greatest_nodes, search_start};
ghost use Rattle.card_family.specs.Families.{family_count};
ghost use Rattle.card_free.specs.NodeSet.{word_count, nodes_of};
ghost use Rattle.card_check.specs.Check.{findings_of, table_check};
ghost use Rattle.card_check.specs.Counting.{table_counted};
ghost use Rattle.state.specs.Block.{free_at, totals_at, state_words, part};
ghost use Rattle.state.specs.Begun.{told};
ghost use Rattle.state.specs.Clauses.{Opened, OpenCall};
ghost use Rattle.call_open.specs.Opening.{open_sound, open_checked, open_of};

use card::Refusal;
use card_check::{FOUND_WORDS, KEY, RUN, TOTALS, VIOLATED};
use state::block::{FREE, PLACES, STATE_WORDS, refuse_beginning, store_resting, store_totals};
use state::{Begun, Doing};

// A sound table is opened, whose free nodes and totals are in the block. The run may be any number here, so 3 is taken from the free nodes and
// not added to it.
fn open_sound(state: &mut [u32], n: usize, last: u32, found: &[u32]) -> Result<Begun, Refusal>
    requires { (length state.old ≡ state_words) × (n ≤ greatest_nodes) × (length found.now ≡ 3 + family_count) }
    ensures { Opened state.old state.new (told result) (open_sound n last (part state.old totals_at family_count)
        (findings_of (nodes_of (part state.old free_at word_count)) found.now)) }
{
    let count = card_free::count(&state[FREE..PLACES]);
    if count < 3 {
        return refuse_beginning(state, Refusal::TooFewFree);
    }
    let run = found[RUN] as usize;
    if count - 3 < run {
        return refuse_beginning(state, Refusal::TooFewFree);
    }
    if found[VIOLATED] != 0 {
        store_resting(state, n, last, Doing::Repairing { key: found[KEY] });
        return Ok(Begun::Started);
    }
    store_resting(state, n, last, Doing::Idle);
    Ok(Begun::Idle)
}

// A card whose length and header are right is opened. The check works out the free nodes in the block's own words and counts the totals
// (document 02, W-204); the search for a free node begins after the root (W-205).
fn open_checked(card: &[u32], n: usize, state: &mut [u32]) -> Result<Begun, Refusal>
    requires { (length card.now ≡ 8 + 24 * n) × (n ≤ greatest_nodes) × (length state.old ≡ state_words) }
    ensures { Opened state.old state.new (told result) (open_checked n (search_start card.now) (table_counted card.now) (table_check card.now n)) }
{
    let mut found: [u32; FOUND_WORDS] = [0; FOUND_WORDS];
    match card_check::check_table(card, n, &mut state[FREE..PLACES], &mut found) {
        None => refuse_beginning(state, Refusal::Unsound),
        Some(_) => {
            store_totals(state, &found[TOTALS..FOUND_WORDS]);
            open_sound(state, n, card[card::ROOT_PLACE], &found)
        }
    }
}

// "Opening stores nothing, works out the free nodes, and hands back an idle state, or one with the repair in progress".
pub fn open(card: &[u32], state: &mut [u32], greatest: usize) -> Result<Begun, Refusal>
    ensures { OpenCall state.old state.new (told result) (open_of greatest card.now) }
{
    if state.len() != STATE_WORDS {
        return Err(Refusal::NoState);
    }
    match card::checked_nodes(card, greatest) {
        Ok(n) => open_checked(card, n, state),
        Err(refusal) => refuse_beginning(state, refusal),
    }
}
