//! Whether two candidates are one, or two prefixes (own).
ghost use Rattle.std.specs.Prelude.{◌≡◌, true};

use isis_base::laws::lsp_number_law;
use isis_base::{LspId, NodeId, Prefix};
use route_table::{Candidate, Rank};

/// Whether two candidates are one.
pub(crate) fn same_candidate(old: &Candidate, new: &Candidate) -> bool
    ensures { result ≡ true → old.now ≡ new.now }
{
    old.cost == new.cost
        && same_prefix(old.prefix, new.prefix)
        && same_rank(old.rank, new.rank)
        && same_node(old.origin, new.origin)
}

/// Whether two prefixes are one.
pub(crate) fn same_prefix(old: Prefix, new: Prefix) -> bool
    ensures { result ≡ true → old ≡ new }
{
    old.address() == new.address() && old.length() == new.length()
}

/// Whether two ranks are one.
fn same_rank(old: Rank, new: Rank) -> bool
    ensures { result ≡ true → old ≡ new }
{
    match old {
        Rank::Own => matches!(new, Rank::Own),
        Rank::One => matches!(new, Rank::One),
        Rank::Two => matches!(new, Rank::Two),
        Rank::OneDown => matches!(new, Rank::OneDown),
        Rank::Default => matches!(new, Rank::Default),
    }
}

/// Whether two nodes are one.
fn same_node(old: NodeId, new: NodeId) -> bool
    ensures { result ≡ true → old ≡ new }
{
    let (old, new) = (
        LspId {
            node: old,
            number: 0,
        },
        LspId {
            node: new,
            number: 0,
        },
    );
    lsp_number_law(old, new);
    old.to_number() == new.to_number()
}
