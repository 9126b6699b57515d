ghost use Rattle.std.specs.Prelude.{◌≡◌};
ghost use Rattle.cb_net_node.specs.Sides.{other_side};

/// One of the two nodes of a link.
#[derive(Clone, Copy, Debug, PartialEq, Eq)]
pub enum Side {
    First,
    Second,
}

impl Side {
    /// The neighbour.
    pub fn other(self) -> Side
        ensures { result ≡ other_side self }
    {
        match self {
            Side::First => Side::Second,
            Side::Second => Side::First,
        }
    }
}
