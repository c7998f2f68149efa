// Where the words of the layout lie, and what counts stay below.
ghost use Rattle.std.specs.Prelude.{◌≡◌};
ghost use Rattle.words.specs.Numbers.{word_number};

// The first three words.
#[derive(Clone, Copy, PartialEq, Eq, Debug)]
pub enum Word {
    Current = 0,
    Started = 1,
    LastNode = 2,
}

impl Word {
    pub fn number(self) -> usize
        ensures { result ≡ word_number self }
    {
        self as usize
    }
}

// The heads come next, and then the nodes, so many words each.
pub const HEADS: u64 = 3;

pub const NODE_WORDS: u64 = 8;

// Tickets, epochs and calls started are below 2^32; MAX_COUNT is the greatest.
pub const COUNTS: u64 = 4294967296;

pub const MAX_COUNT: u64 = 4294967295;

// A standing is 0, 1, or 2 and a number of calls started.
pub const STANDINGS: u64 = 4294967298;
