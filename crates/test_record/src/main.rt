// Records fetched from a block of bytes by ration number (document 02, W-213), and why there is none.

#![tactic(auto)]

use std::io;
use std::io::Write;

// A card of 4 nodes whose one leaf holds rations 1 to 6, their offsets beside them.
fn card_of_six() -> [u32; 104] {
    let mut card = [0; 104];
    card[..5].copy_from_slice(&[1, 4, 8, 24, 1]);
    card[8..15].copy_from_slice(&[1, 1, 2, 3, 4, 5, 6]);
    card[20..26].copy_from_slice(&[0, 5, 12, 13, 16, u32::MAX]);
    card
}

// The record of a ration; empty where there is none.
fn record<'a>(card: &[u32], key: u32, block: &'a [u8]) -> &'a [u8] {
    call_record::fetch_record(card, card::FIRST_LINE, key, block, card::GREATEST_NODES)
}

// What there is for a ration. Where it can't be written the program goes on.
fn say(rt: &impl Print, card: &[u32], key: u32, block: &[u8]) {
    let _ = print!(rt; "ration {key}: ");
    let _ = match call_record::is_fetched(
        card,
        card::FIRST_LINE,
        key,
        block,
        card::GREATEST_NODES,
    ) {
        Ok(true) => io::writer(rt).write_all(record(card, key, block)),
        Ok(false) => print!(rt; "absent"),
        Err(refusal) => print!(rt; "refused {}", refusal.number()),
    };
    let _ = println!(rt);
}

// Two records, a length 0, and a length that runs past the end; a ration that the card does not hold.
fn say_all(rt: &impl Print, card: &[u32]) {
    for key in 0..8 {
        say(rt, card, key, b"\x04mash\x06grower\x00\x09ab");
    }
}

// The longest record, which ends where the block ends.
fn longest() -> [u8; 256] {
    let mut block = [b'.'; 256];
    block[0] = 255;
    block[255] = b'!';
    block
}

// A whole card's record in a short block.
fn say_short(rt: &impl Print, card: &[u32], key: u32) {
    say(rt, card, key, b"\x04mash");
}

// The find's own refusals: the card's length, mark, header, and a root that is no node; key 0 before the root.
fn say_refused(rt: &impl Print, mut card: [u32; 104]) {
    say_short(rt, &card[0..103], 1);
    card[0] = 0;
    say_short(rt, &card, 1);
    card[0] = 1;
    card[2] = 9;
    say_short(rt, &card, 1);
    card[2] = 8;
    card[4] = 0;
    say_short(rt, &card, 1);
    say_short(rt, &card, 0);
}

fn main(rt: HostRuntime) {
    let card = card_of_six();
    say_all(&rt, &card);
    // a record that ends where the block ends, and the same block without its last byte
    say(&rt, &card, 2, b"\x04mash\x06grower");
    say(&rt, &card, 2, b"\x04mash\x06growe");
    say(&rt, &card, 1, &longest());
    // no bytes at all
    say(&rt, &card, 1, b"");
    say_refused(&rt, card);
}
