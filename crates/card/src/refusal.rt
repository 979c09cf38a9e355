// The refusals of the calls (document 01, "Refusal by place"; document 02), each with its number there.
ghost use Rattle.std.specs.Prelude.{◌≡◌};
ghost use Rattle.card.specs.Refusals.{number};

// Why a call is refused. "A refusal gives its number".
#[derive(Clone, Copy, Debug, PartialEq, Eq)]
pub enum Refusal {
    // "length not 8 + 24 × N, N 4 to 600; or N not the state's"
    WrongLength = 1,
    // "word 0 not 1"
    WrongMark = 2,
    // "words 1, 2, 3 or 5 to 7 not as above"
    WrongHeader = 3,
    // the table is not sound
    Unsound = 4,
    // too few free nodes for the repair of opening
    TooFewFree = 5,
    // "key 0"
    ZeroKey = 6,
    // a call or a repair is in hand
    Busy = 7,
    // "key absent, leaf full, free nodes fewer than j + 5"
    NoRoom = 8,
    // "on the way down", or no node to give, or a store outside the card
    WrongNode = 9,
    // "state idle"
    Idle = 10,
    // what is read is no dump
    WrongDump = 11,
    // the lent slice is too short
    ShortSlice = 12,
    // "family above 15" (document 02, W-204)
    WrongFamily = 13,
    // "line number not one the card has" (document 02, W-207)
    WrongLine = 18,
    // "offset at or past the block's end" (document 02, W-213)
    WrongOffset = 23,
    // "length 0 or record running past the end"
    WrongRecord = 24,
    // a block of another length than a state's is lent; the papers have no number for it
    NoState = 71,
}

impl Refusal {
    pub fn number(self) -> u32
        ensures { result ≡ number self }
    {
        self as u32
    }
}
