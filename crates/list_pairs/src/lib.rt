// What the program `list` prints of a card or a dump (document 01, "Dumps and the list program").

#![tactic(auto)]

mod pairs;

ghost use Rattle.std.specs.Prelude.{◌≡◌, length, drop};
ghost use Rattle.call_repair.specs.Repairing.{opened_card, opened_over};
ghost use Rattle.card.specs.Header.{nodes_of_length};
ghost use Rattle.list_pairs.specs.Listing.{list_table, list_card, list_dump, lay_listed};
ghost use Rattle.list_pairs.specs.Summaries.{summary_of, told};

use call_repair::open_repaired;
use card::Refusal;
use card_check::{FOUND_WORDS, TOTALS};
use card_family::FAMILIES;
use pairs::put_pairs;
use state::block::STATE_WORDS;

// "First line: N, free nodes, internal levels, pairs", and what each family holds (document 02, W-204). Of the lent slice the first `words`
// words hold the pairs, key and value.
#[derive(Clone, Copy)]
pub struct Summary {
    pub nodes: usize,
    pub free: usize,
    pub levels: usize,
    pub families: [u32; FAMILIES],
    pub words: usize,
}

// The totals by family that a check counted.
fn totals_found(found: &[u32; FOUND_WORDS]) -> [u32; FAMILIES]
    ensures { result ≡ drop 3 found.now }
{
    let mut totals = [0u32; FAMILIES];
    totals.copy_from_slice(&found[TOTALS..]);
    totals
}

// The table of a card as it is, checked once more: its height, its free nodes and what each family holds are those that the check finds.
#[tactic(auto, unfolding(crate::specs::Listing::list_table, crate::specs::Listing::list_checked, crate::specs::Listing::lay_listed, crate::specs::Summaries::summary_of, crate::specs::Summaries::summarized, card_check::specs::Check::checked_of, card_check::specs::Check::findings_of))]
fn list_table(card: &[u32], out: &mut [u32], greatest: usize) -> Result<Summary, Refusal>
    ensures value { told result ≡ summary_of (list_table greatest card.now (nodes_of_length greatest (length card.now))) out.old }
    ensures out_after { out.new ≡ (lay_listed (list_table greatest card.now (nodes_of_length greatest (length card.now))) out.old).words }
{
    let n = card::nodes_of(card.len(), greatest).ok_or(Refusal::WrongLength)?;
    let mut unreached: [u32; card_free::WORDS] = [0; card_free::WORDS];
    let mut found: [u32; FOUND_WORDS] = [0; FOUND_WORDS];
    let checked = card_check::check_table(card, n, &mut unreached, &mut found);
    let levels = checked.ok_or(Refusal::Unsound)?;
    let free = card_free::count(&unreached);
    let families = totals_found(&found);
    let words = put_pairs(card, out, greatest);
    Ok(Summary {
        nodes: n,
        free,
        levels,
        families,
        words,
    })
}

// "opens and repairs it in memory": a card.
#[tactic(auto, unfolding(crate::specs::Listing::list_card, crate::specs::Listing::list_begun, crate::specs::Listing::lay_listed, crate::specs::Summaries::summary_of, crate::specs::Summaries::summarized, call_repair::specs::Repairing::left_by))]
pub fn list_card(card: &mut [u32], out: &mut [u32], greatest: usize) -> Result<Summary, Refusal>
    ensures value { told result ≡ summary_of (list_card greatest card.old) out.old }
    ensures out_after { out.new ≡ (lay_listed (list_card greatest card.old) out.old).words }
    ensures card_after { card.new ≡ (opened_card greatest card.old).card }
{
    let mut state: [u32; STATE_WORDS] = [0; STATE_WORDS];
    open_repaired(card, &mut state, greatest)?;
    list_table(card, out, greatest)
}

// A dump of a card up to some greatest N, read into a lent slice.
#[tactic(auto, using(card_dump::proofs::AnswerLaws::read_sized, call_repair::proofs::RepairingLaws::over_refused, call_repair::proofs::RepairingLaws::over_read, call_repair::proofs::RepairingLaws::read_card, call_repair::proofs::RepairingLaws::read_beyond), unfolding(crate::specs::Listing::list_dump, crate::specs::Listing::list_read, crate::specs::Listing::lay_listed, crate::specs::Summaries::summary_of, crate::specs::Summaries::summarized))]
pub fn list_dump(
    bytes: &[u8],
    card: &mut [u32],
    out: &mut [u32],
    greatest: usize,
) -> Result<Summary, Refusal>
    ensures value { told result ≡ summary_of (list_dump greatest bytes.now (length card.old)) out.old }
    ensures out_after { out.new ≡ (lay_listed (list_dump greatest bytes.now (length card.old)) out.old).words }
    ensures card_after { card.new ≡ opened_over greatest bytes.now card.old }
{
    let size = card_dump::read_dump(bytes, card, greatest)?;
    list_card(&mut card[..size], out, greatest)
}
