// The programs `list` and `insert_check` on a dump of 601 nodes, which is as long as one of 600 (document 02, W-210): they "still answer
// 11 above 57,856 bytes or 600 nodes". tools/make_list_cards.py makes it; its card is sound, and the calls take it.

#![tactic(auto)]

fn main() {
    let mut dump = io::large_buffer();
    let length = io::read_full(0, &mut dump);
    list_text::print_listing(&dump[..length]);
    reason_text::print_check(&dump[..length], b"3\n");
}
