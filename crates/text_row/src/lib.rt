// A row of bytes that is being filled with text: what the texts of `list` and `insert_check` are made of. Each of these functions
// answers where the next byte goes, and leaves every byte but those it puts as it was. The row and the place go by hand: as a struct
// of a `&mut` and a number each of them and each loop over them would also promise that the `&mut` is still the same.

#![tactic(auto)]

ghost use Rattle.std.specs.Prelude.{◌≡◌, ◌++◌, ◌+◌, ◌≤◌, length};
ghost use Rattle.text_row.specs.Lines.{decimal as decimalOf, number_line, refusal_line};
ghost use Rattle.text_row.specs.Filling.{filled, fill};

// Puts the bytes into the row from place `at` on.
pub fn put_all(text: &mut [u8], at: usize, bytes: &[u8]) -> usize
    requires { at + length bytes.now ≤ length text.old }
    ensures { filled result text.new ≡ fill bytes.now (filled at text.old) }
{
    let end = at + bytes.len();
    text[at..end].copy_from_slice(bytes);
    end
}

// A number after a word and a space.
pub fn put_number(text: &mut [u8], at: usize, word: &[u8], number: u64) -> usize
    requires { at + length word.now + length (decimalOf number) ≤ length text.old }
    ensures { filled result text.new ≡ fill (word.now ++ decimalOf number) (filled at text.old) }
{
    let mut digits = [0u8; 20];
    let k = io::decimal(number, &mut digits);
    let next = put_all(text, at, word);
    put_all(text, next, &digits[..k])
}

// A line of a word and a number, at the start of the row.
pub fn put_line(text: &mut [u8], word: &[u8], number: u32) -> usize
    requires { length word.now + 11 ≤ length text.old }
    ensures text_after { filled result text.new ≡ fill (number_line word.now number) (filled 0 text.old) }
    ensures upper_bound { result ≤ length text.old }
{
    let next = put_number(text, 0, word, number as u64);
    put_all(text, next, b"\n")
}

// "Refused, it prints `refused ` and the number only."
#[tactic(auto, unfolding(crate::specs::Lines::refusal_line, crate::specs::Lines::refused_word))]
pub fn put_refusal(text: &mut [u8], refusal: u32) -> usize
    requires { 19 ≤ length text.old }
    ensures text_after { filled result text.new ≡ fill (refusal_line refusal) (filled 0 text.old) }
    ensures upper_bound { result ≤ length text.old }
{
    put_line(text, b"refused ", refusal)
}

// Writes the first n bytes of the row to standard output.
pub fn print_first(text: &[u8], n: usize) {
    if n <= text.len() {
        io::write_all(1, &text[..n]);
    }
}
