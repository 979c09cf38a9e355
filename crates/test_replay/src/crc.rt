// CRC-32 as the traces give it: the low bit first, by the polynomial 0xedb88320, with all bits turned before and after.
fn shift(crc: u32, bits: usize) -> u32 {
    let mut c = crc;
    for _ in 0..bits {
        c = if c & 1 == 1 {
            (c >> 1) ^ 0xedb88320
        } else {
            c >> 1
        };
    }
    c
}

pub fn of_bytes(bytes: &[u8]) -> u32 {
    !bytes
        .iter()
        .fold(u32::MAX, |c, byte| shift(c ^ u32::from(*byte), 8))
}

// Each word is 4 bytes, low byte first.
pub fn of_words(words: &[u32]) -> u32 {
    !words.iter().fold(u32::MAX, |c, word| shift(c ^ word, 32))
}
