//! Ranks of IPv6 routes.

/// How a prefix is reached, the better way first (RFC 5302 3.2): the root's own, as its systems tell it, and as one that was
/// leaked down from level 2.
#[derive(Clone, Copy, Debug, PartialEq, Eq)]
pub enum Rank6 {
    Own,
    Up,
    Down,
}
