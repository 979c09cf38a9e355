// The lists of calls that are tried.

// No list has keys from a longer range.
pub const MOST_KEYS: usize = 3000;

// A list of so many turns at N nodes, with keys from a range, each multiplied by a number, and one of so many steps tried with a cut.
#[derive(Clone, Copy, Default)]
pub struct List {
    pub nodes: u16,
    pub range: u32,
    pub turns: u32,
    pub scale: u32,
    pub chance: u32,
}

impl List {
    // How many words its card has.
    pub fn length(&self) -> usize {
        8 + 24 * usize::from(self.nodes)
    }

    // The key number i of the range, from 1 on; the last is the greatest key there is.
    pub fn key(&self, i: u32) -> u32 {
        if i == self.range {
            u32::MAX
        } else {
            i.wrapping_mul(self.scale)
        }
    }
}

// Keys that lie all over: an odd number, so that no two of a range are one.
const SPREAD: u32 = 2654435761;

pub const LISTS: [List; 6] = [
    List {
        nodes: 4,
        range: 14,
        turns: 8000,
        scale: 1,
        chance: 1,
    },
    List {
        nodes: 5,
        range: 14,
        turns: 8000,
        scale: 1,
        chance: 1,
    },
    List {
        nodes: 6,
        range: 24,
        turns: 20000,
        scale: 1,
        chance: 1,
    },
    List {
        nodes: 12,
        range: 60,
        turns: 40000,
        scale: SPREAD,
        chance: 1,
    },
    List {
        nodes: 60,
        range: 320,
        turns: 50000,
        scale: SPREAD,
        chance: 8,
    },
    List {
        nodes: 600,
        range: 3000,
        turns: 50000,
        scale: 1,
        chance: 400,
    },
];
