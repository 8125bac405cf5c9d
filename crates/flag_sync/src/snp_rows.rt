//! The table for an entry of a sequence number PDU that is heard: which row it meets.
ghost use Rattle.std.specs.Prelude.{◌≡◌, ◌==◌, nat_lt, Some};
ghost use Rattle.isis_base.specs.Keys.{rank, entry_rank};
ghost use Rattle.model_router.specs.SnpTable.{snp_case, sets_flag};
ghost use Rattle.flag_sync.specs.Known.{known_cell};
ghost use Rattle.flag_sync.specs.Heard.{entry_of, outbid_of, entry_answer_of};

use crate::heard::EntryAnswer;
use crate::known::{Known, issued};
use isis_base::LspEntry;
use model_router::{SnpCase, Whose};

/// Which row of the table an entry meets (ISO 10589 7.3.15.2): the first one that applies.
#[tactic(auto, unfolding(model_router::specs::SnpTable::snp_case))]
pub(crate) fn snp_row_of(known: &Known, entry: &LspEntry, whose: Whose) -> SnpCase
    ensures { result ≡ snp_case whose (Some (known_cell known.now)) (entry_of entry.now) }
{
    let key = entry.key();
    if key.is_none() && known.is_none() {
        return SnpCase::Nothing;
    }
    if known.differs_from(key, entry.checksum) && issued(whose) {
        return SnpCase::Outbid;
    }
    if known.differs_from(key, entry.checksum) {
        return SnpCase::Confused;
    }
    if known.is(key) {
        return SnpCase::Same;
    }
    if known.is_newer_than(key) {
        return SnpCase::Older;
    }
    if !known.is_none() {
        return SnpCase::Newer;
    }
    if entry.lifetime > 0 && entry.checksum > 0 {
        return SnpCase::Asked;
    }
    SnpCase::Unasked
}

/// The answer of a row.
pub(crate) fn snp_answer(row: SnpCase, entry: &LspEntry) -> EntryAnswer
    ensures { result ≡ entry_answer_of row entry.now }
{
    EntryAnswer {
        flagged: is_flagged(row),
        outbid: outbid_above(row, entry),
    }
}

/// Whether a row sets a flag.
pub(crate) fn is_flagged(row: SnpCase) -> bool
    ensures { result ≡ sets_flag row }
{
    match row {
        SnpCase::Nothing => false,
        SnpCase::Outbid => true,
        SnpCase::Confused => true,
        SnpCase::Same => false,
        SnpCase::Older => true,
        SnpCase::Newer => true,
        SnpCase::Asked => true,
        SnpCase::Unasked => false,
    }
}

fn outbid_above(row: SnpCase, entry: &LspEntry) -> Option<u32>
    ensures { result ≡ outbid_of row entry.now }
{
    match row {
        SnpCase::Nothing => None,
        SnpCase::Outbid => Some(entry.number),
        SnpCase::Confused => None,
        SnpCase::Same => None,
        SnpCase::Older => None,
        SnpCase::Newer => None,
        SnpCase::Asked => None,
        SnpCase::Unasked => None,
    }
}
