// The eight words of a node, the link first. A link is read and written as a cell.
ghost use Rattle.std.specs.Prelude.{◌≡◌};
ghost use Rattle.words.specs.Numbers.{field_number};

#[derive(Clone, Copy, PartialEq, Eq, Debug)]
pub enum Field {
    Link = 0,
    Time = 1,
    Ticket = 2,
    Path = 3,
    Order = 4,
    Distance = 5,
    Epoch = 6,
    Standing = 7,
}

impl Field {
    pub fn number(self) -> u64
        ensures { result ≡ field_number self }
    {
        self as u64
    }
}
