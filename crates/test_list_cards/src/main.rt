// The program `list` on fifteen cards, one for each kind of repair, one with keys of several families and one for each refusal: their
// dumps, all of one length, follow one another in standard input. tools/make_list_cards.py makes them, and works out what is to be printed.

#![tactic(auto)]

const DUMP: usize = 2560;

const CARDS: usize = 15;

fn main() {
    let mut bytes = io::large_buffer();
    io::read_full(0, &mut bytes);
    for dump in bytes.chunks_exact(DUMP).take(CARDS) {
        list_text::print_listing(dump);
    }
}
