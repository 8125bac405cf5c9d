//! The causes of a drop by name, with the words that a report prints.
ghost use Rattle.std.specs.Prelude.{◌≡◌, Some};
ghost use Rattle.model_router.specs.Drops.{drop_place, drop_word};

use std::fmt;

/// Why a datagram is dropped, in the order in which it is tested (own). The first test that fails
/// is the cause.
#[derive(Clone, Copy, Debug, PartialEq, Eq)]
pub enum DropName {
    /// It isn't an SNPA and a PDU in this project's frame.
    Frame,
    /// It is in the frame of the first version of the tunnel (own).
    Version,
    /// The PDU's octets aren't those of a PDU (ISO 10589 9).
    Pdu,
    /// An LSP or SNP has a PDU length above 1,492 octets.
    TooLong,
    /// A LAN hello came on a point-to-point circuit, or the reverse.
    WrongKind,
    /// It is of a level that the router doesn't run.
    WrongLevel,
    /// There is a key, and the PDU isn't authentic under it (RFC 5304 3).
    Auth,
    /// A TLV that must be read has a value that doesn't fit.
    Value,
    /// An LSP has sequence number 0 (ISO 10589 7.3.16.1).
    ZeroNumber,
    /// A live LSP's checksum is 0 or doesn't hold (ISO 10589 7.3.15.1).
    BadChecksum,
    /// A hello has one's own system ID.
    OwnId,
    /// A hello's source has other octets than the SNPA that it came from.
    OtherSnpa,
    /// A hello's boot number is below the greatest that was heard of its system (own).
    OldBoot,
    /// A hello's sender runs no level in common (ISO 10589 8.2.4.2).
    NoLevel,
    /// A hello's sender runs L1 in common, and shares no area address (ISO 10589 8.2.4.2).
    NoArea,
    /// A point-to-point hello has no three-way TLV (RFC 5303 3.2).
    NoThreeWay,
    /// A point-to-point hello names another system or circuit than one's own (RFC 5303 3.2).
    OtherNeighbour,
    /// A LAN has 200 neighbours already and the hello is of a further one, or a circuit remembers 256
    /// systems and the hello is of a further one.
    TooMany,
    /// An LSP or SNP didn't come from an up neighbour of its level (ISO 10589 7.3.15.1, 7.3.15.2).
    NoAdjacency,
    /// A PSNP came on a LAN on which the router isn't designated (ISO 10589 7.3.15.2).
    NotDesignated,
    /// An LSP would be a level's 65,537th entry.
    StoreFull,
}

impl DropName {
    /// The place of the cause in the order of tests, 0 to 20.
    pub fn place(self) -> usize
        ensures { result ≡ drop_place self }
    {
        match self {
            DropName::Frame => 0,
            DropName::Version => 1,
            DropName::Pdu => 2,
            DropName::TooLong => 3,
            DropName::WrongKind => 4,
            DropName::WrongLevel => 5,
            DropName::Auth => 6,
            DropName::Value => 7,
            DropName::ZeroNumber => 8,
            DropName::BadChecksum => 9,
            DropName::OwnId => 10,
            DropName::OtherSnpa => 11,
            DropName::OldBoot => 12,
            DropName::NoLevel => 13,
            DropName::NoArea => 14,
            DropName::NoThreeWay => 15,
            DropName::OtherNeighbour => 16,
            DropName::TooMany => 17,
            DropName::NoAdjacency => 18,
            DropName::NotDesignated => 19,
            DropName::StoreFull => 20,
        }
    }

    /// The word that a report prints.
    pub fn word(self) -> &'static str
        ensures { result.now ≡ drop_word self }
    {
        match self {
            DropName::Frame => "frame",
            DropName::Version => "version",
            DropName::Pdu => "pdu",
            DropName::TooLong => "too-long",
            DropName::WrongKind => "wrong-kind",
            DropName::WrongLevel => "wrong-level",
            DropName::Auth => "auth",
            DropName::Value => "value",
            DropName::ZeroNumber => "zero-number",
            DropName::BadChecksum => "checksum",
            DropName::OwnId => "own-id",
            DropName::OtherSnpa => "other-snpa",
            DropName::OldBoot => "old-boot",
            DropName::NoLevel => "no-level",
            DropName::NoArea => "no-area",
            DropName::NoThreeWay => "no-three-way",
            DropName::OtherNeighbour => "other-neighbour",
            DropName::TooMany => "too-many",
            DropName::NoAdjacency => "no-adjacency",
            DropName::NotDesignated => "not-designated",
            DropName::StoreFull => "store-full",
        }
    }
}

impl fmt::Display for DropName {
    ghost output = { λ name. Some (drop_word name) };

    fn fmt<W: fmt::Write>(&self, f: &mut fmt::Formatter<W>) -> fmt::Result {
        f.write_str(self.word())
    }
}
