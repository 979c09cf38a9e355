// The program `list` (document 01, "Dumps and the list program"), on the longest dump, of 600 nodes and with a fault.

#![tactic(auto)]

fn main() {
    list_text::list_input();
}
