// The record of a ration (document 02, W-213): a value is an offset in a lent block of bytes, where a record stands.

#![tactic(auto)]

ghost use Rattle.std.specs.Prelude.{◌≡◌, [], eqb};
ghost use Rattle.laws.specs.Cases.{pick};
ghost use Rattle.card.specs.Refusals.{number_of};
ghost use Rattle.call_record.specs.Fetched.{told};
ghost use Rattle.call_record.specs.Records.{record_refusal, record_at, fetch_of, record_of};

use card::Refusal;

// "23: offset at or past the block's end. 24: length 0 or record running past the end".
fn check_record(block: &[u8], at: usize) -> Result<(), Refusal>
    ensures { number_of result ≡ record_refusal block.now at }
{
    if block.len() <= at {
        return Err(Refusal::WrongOffset);
    }
    let size = usize::from(block[at]);
    if size == 0 {
        return Err(Refusal::WrongRecord);
    }
    if block.len() - at <= size {
        return Err(Refusal::WrongRecord);
    }
    Ok(())
}

// The record at an offset, "without the length byte and uncopied"; where there is none the part is empty.
fn record_at(block: &[u8], at: usize) -> &[u8]
    ensures { result.now ≡ pick (eqb (record_refusal block.now at) 0) (record_at block.now at) [] }
{
    if check_record(block, at).is_err() {
        return &block[..0];
    }
    let from = at + 1;
    let end = from + usize::from(block[at]);
    &block[from..end]
}

// "The found record is handed back as that part of the lent block".
#[tactic(auto, unfolding(crate::specs::Records::record_of, crate::specs::Records::record_for))]
pub fn fetch_record<'a>(
    card: &[u32],
    line: u32,
    key: u32,
    block: &'a [u8],
    greatest: usize,
) -> &'a [u8]
    ensures { result.now ≡ record_of greatest line card.now key block.now }
{
    match call_find::find(card, line, key, greatest) {
        Ok(Some(value)) => record_at(block, value as usize),
        Ok(None) | Err(_) => &block[..0],
    }
}

// Whether there is a record: "a second question over the same inputs tells found, absent or the refusal".
#[tactic(auto, using(card::proofs::RefusalLaws::number_some), unfolding(crate::specs::Records::fetch_of, crate::specs::Records::fetched_for, crate::specs::Records::fetched_at))]
pub fn is_fetched(
    card: &[u32],
    line: u32,
    key: u32,
    block: &[u8],
    greatest: usize,
) -> Result<bool, Refusal>
    ensures { told result ≡ fetch_of greatest line card.now key block.now }
{
    match call_find::find(card, line, key, greatest)? {
        Some(value) => {
            check_record(block, value as usize)?;
            Ok(true)
        }
        None => Ok(false),
    }
}
