// The key that a file holds (request W-209): "reads a key from the last line of a file named `key` of at most 64 bytes".
// Opening and reading the file is the program's part; these functions take its bytes.

#![tactic(auto)]

ghost use Rattle.std.specs.Prelude.{◌≡◌, unwrap_or, Some};
ghost use Rattle.reason_key.specs.KeyFile.{without_final_feed, last_line, key_of_line, key_in};

// "of at most 64 bytes": the only place in code where the limit stands.
pub const MOST_BYTES: usize = 64;

// The key in the last line of a file, where there is one. 0 is none.
pub fn key_in(file: &[u8]) -> Option<u32>
    ensures value { unwrap_or result 0 ≡ key_in file.now }
    ensures not_zero { result ≡ Some 0 → ⊥ }
{
    // "longer": a file of more than 64 bytes has no key, whatever its last line is
    if MOST_BYTES < file.len() {
        return None;
    }
    key_of_line(last_line(without_final_feed(file)))
}

// "final line feed apart", and one line feed only.
fn without_final_feed(file: &[u8]) -> &[u8]
    ensures { result.now ≡ without_final_feed file.now }
{
    file.strip_suffix(b"\n").unwrap_or(file)
}

// What stands after the last line feed, or all where there is none.
fn last_line(text: &[u8]) -> &[u8]
    ensures { result.now ≡ last_line text.now }
{
    text.rsplit(|byte| *byte == b'\n').next().unwrap_or(text)
}

// The key that a whole line is: "a decimal key from 1 to 4,294,967,295 (digits only, leading zeros allowed)". The value only
// grows, so that a line is given up as soon as the value is past the greatest key, and no digit can overflow it.
fn key_of_line(line: &[u8]) -> Option<u32>
    ensures value { unwrap_or result 0 ≡ key_of_line line.now }
    ensures not_zero { result ≡ Some 0 → ⊥ }
{
    let mut value: u64 = 0;
    for byte in line {
        // "digits only": a sign, a space or a carriage return is none
        if !byte.is_ascii_digit() {
            return None;
        }
        value = 10 * value + u64::from(*byte - b'0');
        if card::KEY_LIMIT <= value {
            return None;
        }
    }
    if value == 0 { None } else { Some(value as u32) }
}
