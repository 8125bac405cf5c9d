//! An own LSP without its number, and its issue.
ghost use Rattle.std.specs.Prelude.{◌≡◌, ◌<◌, ◌≤◌, length, is_some, IfOk};
ghost use Rattle.std.specs.Option.{option_copied};
ghost use Rattle.isis_base.specs.Identifiers.{lsp_number};
ghost use Rattle.isis_base.specs.Keys.{rank};
ghost use Rattle.isis_pdu.specs.Spelling.{octets_of_pdu};
ghost use Rattle.model_router.specs.Good.{IsIssuable};
ghost use Rattle.model_router.specs.Ranks.{live_rank};
ghost use Rattle.model_datagram.specs.Lsps.{issued_pdu, issued_checksum};
ghost use Rattle.router_sending.specs.Drafts.{IsIssuedCell};

use crate::blank::{BLANK_AUTH, blank};
use crate::places::{NUMBER, sign, sum, write_at};
use isis_base::laws::lsp_id_law;
use isis_base::{Key, Level, LspId, Octets, OutOfMemory};
use lsp_store::Entry;
use std::alloc::Global;
use std::marker::Model;

/// The seconds that an issue lives (ISO 10589 7.3.16.3, MaxAge).
pub(crate) const MAX_AGE: u16 = 1200;

/// An own LSP, ready to be issued but for its sequence number (ISO 10589 9.8). Contracts see its
/// level, its LSP ID, its flags octet and TLVs, and whether it is signed.
#[derive(Drop, Debug)]
pub struct Draft {
    level: Level,
    id: LspId,
    flags: u8,
    keyed: bool,
    tlvs: Octets,
    octets: Octets,
}

impl Model for Draft {
    ghost use Rattle.router_sending.specs.Drafts.{DraftView, IsDraft};

    ghost Value = { DraftView };

    ghost view = { λ d. record {
      level = d.level;
      id = d.id;
      contents = record { flags = d.flags; tlvs = d.tlvs };
      keyed = d.keyed;
    } };

    ghost invariant = { λ d. IsDraft d.level d.id d.flags d.keyed d.tlvs d.octets };
}

/// An own LSP that is issued: what is held of it, and its TLVs.
#[derive(Drop, Debug)]
pub struct Issued {
    pub entry: Entry,
    pub tlvs: Octets,
}

impl Draft {
    /// An own LSP of these TLVs, which are TLVs to their end and leave room for the header, and for
    /// the authentication where there is a key (RFC 5304 2). Of the key only whether there is one
    /// is looked at.
    pub fn new(
        alloc: Global,
        key: Option<&[u8]>,
        level: Level,
        id: LspId,
        flags: u8,
        tlvs: Octets,
    ) -> Result<Draft, OutOfMemory>
        requires issuable { IsIssuable (option_copied key) (record { flags = flags; tlvs = tlvs }) }
        ensures { IfOk result (λ draft. draft ≡ record {
          level = level;
          id = id;
          contents = record { flags = flags; tlvs = tlvs };
          keyed = is_some (option_copied key.entry);
        }) }
    {
        let keyed = key.is_some();
        let auth: &[u8] = if keyed { &BLANK_AUTH } else { &[] };
        let octets = blank(alloc, level, id, flags, auth, tlvs.as_slice())?;
        Ok(Draft {
            level,
            id,
            flags,
            keyed,
            tlvs,
            octets,
        })
    }

    /// Issues it at a number, which isn't 0, under the key: the number, the digest where there is a
    /// key (RFC 5304 2) and the checksum (ISO 10589 7.3.11) are written in place. It takes no
    /// memory. There is a key where there was one for `new`.
    pub fn issue(self, key: Option<&[u8]>, number: u32) -> Issued
        requires some { 0 < number }
        requires keyed { is_some (option_copied key) ≡ self.keyed }
        ensures cell { IsIssuedCell (option_copied key.entry) self.level (lsp_number self.id) number
            self.contents result.entry }
        ensures rank { rank result.entry.key ≡ live_rank number }
        ensures fields { (result.entry.flags ≡ self.contents.flags) × (result.entry.left ≡ 1200) }
        ensures octets { result.entry.octets ≡ octets_of_pdu (issued_pdu (option_copied key.entry)
            self.level (lsp_number self.id) number self.contents) }
        ensures checksum { result.entry.checksum ≡ issued_checksum (option_copied key.entry)
            self.level (lsp_number self.id) number self.contents }
        ensures long { 27 ≤ length result.entry.octets }
        ensures tlvs { result.tlvs ≡ self.contents.tlvs }
    {
        let Draft {
            id,
            flags,
            tlvs,
            mut octets,
            ..
        } = self;
        lsp_id_law(id);
        write_at(&mut octets, NUMBER, &number.to_be_bytes());
        sign(&mut octets, key);
        let checksum = sum(&mut octets);
        let key = Some(Key {
            number,
            purged: false,
        });
        let entry = Entry {
            key,
            checksum,
            flags,
            left: MAX_AGE,
            octets,
        };
        Issued { entry, tlvs }
    }

    /// Its level.
    pub fn level(&self) -> Level
        ensures { result ≡ self.now.level }
    {
        self.level
    }

    /// Its LSP ID.
    pub fn id(&self) -> LspId
        ensures { result ≡ self.now.id }
    {
        self.id
    }

    /// Its flags octet (ISO 10589 9.8).
    pub fn flags(&self) -> u8
        ensures { result ≡ self.now.contents.flags }
    {
        self.flags
    }

    /// Its TLVs, without the authentication.
    pub fn tlvs(&self) -> &[u8]
        ensures { result.now ≡ self.now.contents.tlvs }
    {
        self.tlvs.as_slice()
    }
}
