// The program `list` (document 01, "Dumps and the list program"), on a dump that is one byte too long.

#![tactic(auto)]

fn main() {
    list_text::list_input();
}
