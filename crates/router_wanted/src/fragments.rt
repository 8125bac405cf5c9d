//! The split of what fits.
ghost use Rattle.std.specs.Prelude.{◌≡◌, ◌≤◌, take, length, IfOk};
ghost use Rattle.model_router.specs.Splits as splits;
ghost use Rattle.model_router.specs.Wanted.{room_for};
ghost use Rattle.lsp_fragments.specs.Entries.{content_entries, content_first};
ghost use Rattle.router_wanted.specs.Lent.{key_of};
ghost use Rattle.router_wanted.specs.Views.{IsSplittable};

use isis_base::{Octets, OutOfMemory};
use lsp_fragments::{Content, SplitFault, split};
use std::alloc::Global;

/// The octets that a fragment's TLVs may take, with authentication and without (ISO 10589 7.3.4).
const SIGNED: usize = 1446;

const PLAIN: usize = 1465;

/// The TLVs of each fragment, and whether all entries fit.
pub(crate) struct Parts {
    pub tlvs: Vec<Octets>,
    pub whole: bool,
}

/// The split of a content: of all entries, or else of those that 256 fragments hold.
pub(crate) fn fragments(alloc: Global, content: Content, signed: bool) -> Result<Parts, OutOfMemory>
    requires { IsSplittable content }
    ensures split { IfOk result (λ parts. splits.split (content_first content)
        (content_entries content) (room_for (key_of signed))
        ≡ record { fragments = parts.tlvs.items; whole = parts.whole }) }
    ensures few { IfOk result (λ parts. length parts.tlvs.items ≤ 256) }
{
    let room = if signed { SIGNED } else { PLAIN };
    let fit = match split(alloc, &content, room) {
        Ok(tlvs) => return Ok(Parts { tlvs, whole: true }),
        Err(SplitFault::TooMuch { fit }) => fit,
        Err(SplitFault::OutOfMemory) => return Err(OutOfMemory),
    };
    let content = first_entries(content, fit);
    match split(alloc, &content, room) {
        Ok(tlvs) => Ok(Parts { tlvs, whole: false }),
        Err(_) => Err(OutOfMemory),
    }
}

/// A content with the first so many of its entries, the neighbours before the prefixes.
fn first_entries(content: Content, count: usize) -> Content
    ensures entries { content_entries result ≡ take count (content_entries content) }
    ensures first { content_first result ≡ content_first content }
    ensures areas { result.areas.items ≡ content.areas.items }
    ensures addresses { result.addresses.items ≡ content.addresses.items }
    ensures neighbours { result.neighbours.items ≡ take count content.neighbours.items }
{
    let mut content = content;
    let before = content.neighbours.len();
    content.neighbours.truncate(count);
    content.prefixes.truncate(count.saturating_sub(before));
    content
}
