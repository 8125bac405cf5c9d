//! What is heard of an LSP, and what a book answers.
use isis_base::LspEntry;

/// An LSP that is heard (ISO 10589 9.8): what its header says, its flags octet, and all its octets.
#[derive(Clone, Copy, Debug)]
pub struct LspHeard<'a> {
    pub entry: LspEntry,
    pub flags: u8,
    pub octets: &'a [u8],
}

/// What became of an LSP that was heard: the row of the table that it met (ISO 10589 7.3.15.1,
/// 7.3.16).
#[derive(Clone, Copy, Debug, PartialEq, Eq)]
pub enum LspAnswer {
    /// It is newer, and kept.
    Stored,
    /// It is what is held.
    Same,
    /// It is older than what is held.
    Older,
    /// It has another checksum than what is held under one live number, which is purged.
    Confused,
    /// It is one's own and issued: it is to be issued anew, above this number.
    Outbid { above: u32 },
    /// It is of one's own system and isn't issued: it is kept purged.
    PurgedOwn,
    /// It is a purge of which nothing is held: it is to be acknowledged.
    AckPurge,
}

/// What became of an entry of a sequence number PDU that was heard (ISO 10589 7.3.15.2).
#[derive(Clone, Copy, Debug, PartialEq, Eq)]
pub struct EntryAnswer {
    /// Whether its row sets a flag, or found the store full.
    pub flagged: bool,
    /// One's own LSP that is issued is to be issued anew, above this number.
    pub outbid: Option<u32>,
}
