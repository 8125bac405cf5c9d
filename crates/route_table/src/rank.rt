//! Ranks.

ghost use Rattle.std.specs.Prelude.{◌≡◌};
ghost use Rattle.route_table.specs.Ranks.{rank_number};

/// How a prefix is reached, the better way first (RFC 5302 3.2): the router's own prefix, level 1, level 2, level 1 from
/// above, and by default.
#[derive(Clone, Copy, Debug, PartialEq, Eq, PartialOrd, Ord, Hash)]
pub enum Rank {
    Own,
    One,
    Two,
    OneDown,
    Default,
}

/// The place of a rank among all.
pub fn rank_number(rank: Rank) -> u8
    ensures { result ≡ rank_number rank }
{
    match rank {
        Rank::Own => 0,
        Rank::One => 1,
        Rank::Two => 2,
        Rank::OneDown => 3,
        Rank::Default => 4,
    }
}
