// The program `list` (document 01, "Dumps and the list program"), on the dump that the document gives.

#![tactic(auto)]

fn main() {
    list_text::list_input();
}
