// What the program `insert_check` prints (document 02, W-209): `held V`, `slot`, or `split J free F need M`; before these a refusal,
// as `list` prints it, or `no key`. The text is made in a row of bytes, and the printing only writes that row.

#![tactic(auto)]

ghost use Rattle.std.specs.Prelude.{◌≡◌, ◌++◌, ◌≤◌, length, drop};
ghost use Rattle.text_row.specs.Filling.{filled, fill};
ghost use Rattle.card.specs.Layout.{program_nodes};
ghost use Rattle.reason.specs.Reason.{told};
ghost use Rattle.reason_text.specs.ReasonText.{split_line, reason_text, check_text};

use card::Refusal;
use reason::Reason;
use text_row::{print_first, put_all, put_line, put_number, put_refusal};

// Room for the longest text, `split J free F need M` with numbers of at most 20 digits.
pub type Line = [u8; 79];

// "`split J free F need M`"
fn put_split(text: &mut [u8], run: usize, free: usize, need: usize) -> usize
    requires { 79 ≤ length text.old }
    ensures text_after { filled result text.new ≡ fill (split_line run free need) (filled 0 text.old) }
    ensures upper_bound { result ≤ length text.old }
{
    let split = put_number(text, 0, b"split ", run as u64);
    let spare = put_number(text, split, b" free ", free as u64);
    let needed = put_number(text, spare, b" need ", need as u64);
    put_all(text, needed, b"\n")
}

// The text of a reason or of a refusal, from the start of the row on; the answer is where the next byte goes.
#[tactic(auto, unfolding(crate::specs::ReasonText::reason_text, crate::specs::ReasonText::no_key_word, crate::specs::ReasonText::held_word, crate::specs::ReasonText::slot_word, text_row::specs::Lines::line_feed))]
fn put_reason(text: &mut [u8], reason: Result<Reason, Refusal>) -> usize
    requires { 79 ≤ length text.old }
    ensures text_after { filled result text.new ≡ fill (reason_text (told reason)) (filled 0 text.old) }
    ensures upper_bound { result ≤ length text.old }
{
    match reason {
        Ok(Reason::NoKey) => put_all(text, 0, b"no key\n"),
        Ok(Reason::Held(value)) => put_line(text, b"held ", value),
        Ok(Reason::Slot) => put_all(text, 0, b"slot\n"),
        Ok(Reason::Split { run, free, need }) => put_split(text, run, free, need),
        Err(refusal) => put_refusal(text, refusal.number()),
    }
}

// What `insert_check` prints for a dump and the bytes of the file that has the key; the answer is how many bytes it is. The words
// are those of 600 nodes.
pub fn check_text(dump: &[u8], file: &[u8], text: &mut Line) -> usize
    ensures value { result ≡ length (check_text program_nodes dump.now file.now) }
    ensures text_after { text.new ≡ check_text program_nodes dump.now file.now
        ++ drop (length (check_text program_nodes dump.now file.now)) text.old }
{
    let mut card = [0u32; card::PROGRAM_WORDS];
    let reason = reason::insert_reason_for_file(dump, file, &mut card, card::PROGRAM_NODES);
    put_reason(text, reason)
}

// What the program `insert_check` prints.
pub fn print_check(dump: &[u8], file: &[u8]) {
    let mut text: Line = [0; 79];
    let n = check_text(dump, file, &mut text);
    print_first(&text, n);
}
