// The stream of operations on standard input. It is read by the crate `io`, into a buffer of fixed size: std's `BufReader` takes the heap.
ghost use Rattle.std.specs.Prelude.{◌<◌};

// The place after one. It is no range's next number: past 2^32 places go on from 1.
pub fn next_place(place: usize) -> usize {
    place % 4294967296 + 1
}

#[derive(Drop)]
pub struct Stream {
    input: [u8; 4096],
    // how many bytes of the input in hand were read, and how many were taken
    got: usize,
    at: usize,
}

impl Stream {
    pub fn new() -> Self {
        Stream {
            input: io::buffer(),
            got: 0,
            at: 0,
        }
    }

    // The next byte of the input, and 0 past its end.
    pub fn next_byte(&mut self) -> u8 {
        if self.got <= self.at {
            self.got = io::read_full(0, &mut self.input);
            self.at = 0;
        }
        if self.got <= self.at {
            return 0;
        }
        let byte = self.input.get(self.at).copied().unwrap_or(0);
        self.at += 1;
        byte
    }

    // The next number: groups of 7 bits, the low ones first, 128 added to each byte but the last.
    pub fn next_number(&mut self) -> u32 {
        let mut number = 0;
        for shift in [0, 7, 14, 21, 28] {
            let byte = self.next_byte();
            number |= u32::from(byte & 127) << shift;
            if byte < 128 {
                break;
            }
        }
        number
    }

    // The low 16 bits of the next number.
    pub fn next_low(&mut self) -> usize
        ensures { result < 65536 }
    {
        (self.next_number() % 65536) as usize
    }
}
