//! A level of router_levels: an own LSP over its life, issued, outbid by an LSP and by an entry, and withdrawn; and the
//! flags, seconds and let-go LSP IDs.
ghost use Rattle.std.specs.Prelude.{◌≡◌, ◌<◌, false, IfOk};

use crate::made::{FIRST, OWN};
use flag_sync::LspHeard;
use isis_base::{CircuitKind, Level, LspEntry, LspId, Octets, OutOfMemory};
use isis_tlv::are_tlvs;
use router_levels::{LevelParts, Wants};
use router_sending::Draft;
use std::alloc::Global;

/// What another router says of an LSP ID.
const fn said(id: LspId, number: u32, lifetime: u16) -> LspEntry
    ensures id { result.id ≡ id }
    ensures number { result.number ≡ number }
{
    LspEntry {
        lifetime,
        id,
        number,
        checksum: 9,
    }
}

/// A draft without TLVs.
fn draft(alloc: Global, id: LspId) -> Result<Draft, OutOfMemory>
    ensures id { IfOk result (λ draft. draft.id ≡ id) }
    ensures keyed { IfOk result (λ draft. draft.keyed ≡ false) }
{
    let tlvs = Octets::new(alloc);
    if !are_tlvs(tlvs.as_slice()) {
        return Err(OutOfMemory);
    }
    Draft::new(alloc, None, Level::One, id, 3, tlvs)
}

/// A level of two open circuits, a point-to-point one and a LAN.
fn level(alloc: Global) -> Result<LevelParts, OutOfMemory>
    ensures { IfOk result (λ level. level.book.circuits ≡ 2) }
{
    let kinds = [CircuitKind::PointToPoint, CircuitKind::Lan];
    let mut level = LevelParts::new(alloc, kinds.as_slice())?;
    level.follow(1, false, true);
    level.follow(2, false, true);
    Ok(level)
}

/// The level's own LSP is wanted.
fn issue(alloc: Global, level: &mut LevelParts) -> Result<(), OutOfMemory>
    ensures { level.new.book.circuits ≡ level.old.book.circuits }
{
    level.reserve(1, 1)?;
    let draft = draft(alloc, OWN)?;
    let mut wants = Wants::new(alloc);
    wants.push(draft)?;
    level.renew(None, wants);
    Ok(())
}

/// No LSP is wanted.
fn withdraw(alloc: Global, level: &mut LevelParts) -> Result<(), OutOfMemory>
    ensures { level.new.book.circuits ≡ level.old.book.circuits }
{
    level.reserve(1, 1)?;
    level.renew(None, Wants::new(alloc));
    Ok(())
}

/// An LSP is taken on circuit 1; whether it met the row that was foreseen.
fn taken(alloc: Global, level: &mut LevelParts, heard: LspEntry) -> Result<bool, OutOfMemory>
    requires circuits { level.old.book.circuits ≡ 2 }
    requires number { 0 < heard.number }
    ensures { level.new.book.circuits ≡ level.old.book.circuits }
{
    let octets = [2u8; 30];
    let lsp = LspHeard {
        entry: heard,
        flags: 3,
        octets: octets.as_slice(),
    };
    if level.no_room(FIRST, &lsp) {
        return Ok(false);
    }
    let foreseen = level.lsp_case(FIRST, &lsp);
    let answer = draft(alloc, heard.id)?;
    let row = level.take_lsp(1, FIRST, &lsp, None, Some(answer))?;
    Ok(row == foreseen)
}

/// An entry that says another checksum than what is held is taken on circuit 1, in a CSNP of all
/// LSP IDs.
fn listed(alloc: Global, level: &mut LevelParts, entry: LspEntry) -> Result<(), OutOfMemory>
    requires circuits { level.old.book.circuits ≡ 2 }
    ensures { level.new.book.circuits ≡ level.old.book.circuits }
{
    level.reserve(1, 0)?;
    let range = Some((LspId::from_number(0), LspId::from_number(u64::MAX)));
    let draft = draft(alloc, entry.id)?;
    let mut drafts = Vec::with_capacity(alloc, 1)?;
    drafts.push_reserved(Some(draft));
    level.take_snp(1, FIRST, range, [entry].as_slice(), None, drafts);
    Ok(())
}

/// Whether the own LSP is held at a number, purged or not, and issued or not.
fn is_at(level: &LevelParts, number: u32, purged: bool, issued: bool) -> bool {
    let held = match level.book().key(OWN) {
        Some(key) => key.number == number && key.purged == purged,
        None => number == 0,
    };
    held && level.own().is_issued(OWN) == issued
}

/// Whether an own LSP is issued, outbid by an LSP and then by an entry.
fn is_outbid(alloc: Global, level: &mut LevelParts) -> Result<bool, OutOfMemory>
    requires { level.old.book.circuits ≡ 2 }
    ensures { level.new.book.circuits ≡ level.old.book.circuits }
{
    issue(alloc, level)?;
    let issued = is_at(level, 1, false, true);
    let met = taken(alloc, level, said(OWN, 5, 900))?;
    let above = is_at(level, 6, false, true);
    listed(alloc, level, said(OWN, 6, 900))?;
    Ok(issued & met & above & is_at(level, 7, false, true))
}

/// Whether it is withdrawn, and purged where it is heard again.
fn is_purged(alloc: Global, level: &mut LevelParts) -> Result<bool, OutOfMemory>
    requires { level.old.book.circuits ≡ 2 }
    ensures { level.new.book.circuits ≡ level.old.book.circuits }
{
    withdraw(alloc, level)?;
    let withdrawn = is_at(level, 7, true, false);
    let again = taken(alloc, level, said(OWN, u32::MAX, 900))?;
    Ok(withdrawn & again & is_at(level, u32::MAX, true, false))
}

/// Whether an own LSP lives so in a level, and a copy keeps what it was made of.
fn lives_in(alloc: Global, level: &mut LevelParts) -> Result<bool, OutOfMemory>
    requires { level.old.book.circuits ≡ 2 }
{
    let outbid = is_outbid(alloc, level)?;
    let copy = level.copy()?;
    let purged = is_purged(alloc, level);
    let kept = is_at(&copy, 7, false, true);
    drop(copy);
    Ok(outbid & purged? & kept)
}

/// The same of a level that is made.
fn lives(alloc: Global) -> Result<bool, OutOfMemory> {
    let mut level = level(alloc)?;
    let lived = lives_in(alloc, &mut level);
    drop(level);
    lived
}

/// Whether SRM of an own LSP stands, waits and is due again, on circuit 1, and falls on circuit 2.
fn is_sent(level: &mut LevelParts) -> bool
    requires { level.old.book.circuits ≡ 2 }
    ensures { level.new.book.circuits ≡ level.old.book.circuits }
{
    let first = level.book().due(1).next().is_some() & level.book().srm(2, OWN);
    level.sent(1);
    level.sent(2);
    let none = level.book().due(1).next().is_none() & !level.book().srm(2, OWN);
    level.wait();
    level.wait();
    level.wait();
    level.wait();
    level.wait();
    first & none & level.book().due(1).next().is_some()
}

/// Whether an LSP ID is let go, stored, acknowledged and aged.
fn is_stored(alloc: Global, level: &mut LevelParts, id: LspId) -> Result<bool, OutOfMemory>
    requires { level.old.book.circuits ≡ 2 }
{
    let acked = taken(alloc, level, said(id, 3, 0))? & level.gone().has(id);
    let stored = taken(alloc, level, said(id, 4, 1))? & level.book().ssn(1, id);
    level.answered(1);
    let answered = !level.book().ssn(1, id);
    let aged = level.age() & level.book().srm(1, id);
    Ok(acked & stored & answered & aged)
}

/// Whether flags, seconds and let-go LSP IDs of a level are as they should be.
fn is_flooded(alloc: Global, level: &mut LevelParts) -> Result<bool, OutOfMemory>
    requires { level.old.book.circuits ≡ 2 }
{
    issue(alloc, level)?;
    let sent = is_sent(level);
    Ok(is_stored(alloc, level, LspId::from_number(7))? & sent)
}

/// The same of a level that is made.
fn floods(alloc: Global) -> Result<bool, OutOfMemory> {
    let mut level = level(alloc)?;
    let flooded = is_flooded(alloc, &mut level);
    drop(level);
    flooded
}

#[test]
fn an_own_lsp_lives(rt: HostRuntime) {
    assert_eq!(rt; lives(rt.alloc()), Ok(true));
}

#[test]
fn a_level_floods(rt: HostRuntime) {
    assert_eq!(rt; floods(rt.alloc()), Ok(true));
}
