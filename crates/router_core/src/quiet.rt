//! Whether own LSPs say what is wanted, and whether a second issues and purges none.
ghost use Rattle.std.specs.Prelude.{◌≡◌, true, Some, map};
ghost use Rattle.std.specs.Option.{option_map};
ghost use Rattle.isis_base.specs.Identifiers.{lsp_number};
ghost use Rattle.model_router.specs.Maps.{find};
ghost use Rattle.lsp_fragments.specs.Issues.{says_same};
ghost use Rattle.router_wanted.specs.Views.{contents_of, wanted_of};
ghost use Rattle.router_core.specs.Seconds.{IsQuiet, Waits};
ghost use Rattle.router_core.specs.Settled.{IsSettled, Says};

use isis_base::LspId;
use lsp_fragments::{Issue, OwnLsps};
use router_wanted::Wanted;

/// Whether what is issued is what is wanted, and nothing of it is due (ISO 10589 7.3.5, 7.3.6).
pub(crate) fn is_quiet(own: &OwnLsps, wanted: &[Wanted]) -> bool
    ensures { result ≡ true → IsQuiet own.now.issued (map wanted_of wanted.now) }
{
    let mut next = own.next_from(LspId::from_number(0));
    let mut left = wanted;
    while let [want, more @ ..] = left {
        if !is_next(next, want.id) {
            return false;
        }
        if !waits(own, want) {
            return false;
        }
        next = own.next_above(want.id);
        left = more;
    }
    !next.is_some()
}

/// Whether each fragment that is wanted is issued with those contents, and nothing else is issued
/// (ISO 10589 7.3.6).
pub(crate) fn is_settled(own: &OwnLsps, wanted: &[Wanted]) -> bool
    ensures { result ≡ true → IsSettled own.now.issued (map wanted_of wanted.now) }
{
    let mut next = own.next_from(LspId::from_number(0));
    let mut left = wanted;
    while let [want, more @ ..] = left {
        if !is_next(next, want.id) {
            return false;
        }
        if !is_said(own, want) {
            return false;
        }
        next = own.next_above(want.id);
        left = more;
    }
    next.is_none()
}

/// Whether what is wanted of an LSP ID is issued.
fn is_said(own: &OwnLsps, want: &Wanted) -> bool
    ensures { result ≡ true → Says own.now.issued (wanted_of want.now) }
{
    match own.contents(want.id) {
        Some((tlvs, flags)) => flags == want.flags && tlvs == want.tlvs.as_slice(),
        None => false,
    }
}

/// Whether the next LSP ID is this one.
fn is_next(next: Option<LspId>, id: LspId) -> bool
    ensures { result ≡ true → option_map lsp_number next ≡ Some (lsp_number id) }
{
    match next {
        Some(next) => next.to_number() == id.to_number(),
        None => false,
    }
}

/// Whether what is wanted of an LSP ID isn't issued now.
fn waits(own: &OwnLsps, want: &Wanted) -> bool
    ensures { result ≡ true → Waits own.now.issued (wanted_of want.now) }
{
    let same = says_same(own, want);
    match own.next_issue(want.id, None, same) {
        Issue::Wait => true,
        _ => false,
    }
}

/// Whether the last issue says the same; where it isn't issued nothing does.
pub(crate) fn says_same(own: &OwnLsps, want: &Wanted) -> bool
    ensures { result
        ≡ says_same (find own.now.issued (lsp_number want.now.id)) (contents_of want.now) }
{
    match own.contents(want.id) {
        Some((tlvs, flags)) => flags == want.flags && tlvs == want.tlvs.as_slice(),
        None => true,
    }
}
