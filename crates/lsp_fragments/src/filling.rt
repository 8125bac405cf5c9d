//! Fragments while they are filled.
ghost use Rattle.std.specs.Prelude.{◌≡◌, ◌≤◌, ◌<◌, ◌+◌, [], ◌∷◌, ◌++◌, length, true, false, Ok, IfOk, OnOk, OnErr};
ghost use Rattle.model_router.specs.Splits as splits;

use isis_base::{Draft, Octets, OutOfMemory};
use std::alloc::Global;
use std::marker::Model;
use std::mem;

/// The most fragments of an LSP (ISO 10589 7.3.4).
const FRAGMENTS: usize = 256;

/// The most octets of a TLV's value (ISO 10589 9.8).
const VALUE: usize = 255;

/// Fragments while they are filled: those that are done, the open one, and apart its last TLV,
/// which may still grow; code 0 where it has none. Contracts see it as the router's model has it.
#[derive(Drop)]
pub(crate) struct Filling {
    alloc: Global,
    done: Vec<Octets>,
    closed: Octets,
    code: u8,
    value: Draft,
}

impl Model for Filling {
    ghost use Rattle.std.specs.Prelude.{◌≤◌, ◌+◌, length};
    ghost use Rattle.model_router.specs.Splits as splits;

    ghost Value = { splits.Draft };

    ghost view = { λ f. record {
      done = f.done.items;
      closed = f.closed;
      code = f.code;
      value = f.value;
    } };

    ghost invariant = { λ f. length f.closed + length f.value ≤ 2000 };
}

impl Filling {
    /// Nothing but what the first fragment begins with.
    pub(crate) fn new(alloc: Global, first: Octets) -> Filling
        requires { length first ≤ 400 }
        ensures { result ≡ record { done = []; closed = first; code = 0; value = [] } }
    {
        Filling {
            alloc,
            done: Vec::new(alloc),
            closed: first,
            code: 0,
            value: Draft::new(),
        }
    }

    /// Puts an entry in: in the last TLV, else in a new one, else in the next fragment. Whether 256
    /// fragments hold it; where they don't, nothing changes.
    #[tactic(auto, unfolding(model_router::specs::Splits::with_item))]
    pub(crate) fn put(&mut self, code: u8, entry: &[u8], room: usize) -> Result<bool, OutOfMemory>
        requires code { 0 < code }
        requires entry { length entry.now ≤ 255 }
        requires room { room ≤ 1465 }
        ensures held { IfOk result (λ held. held ≡ splits.holds_more room self.old
            (record { code = code; octets = entry.now })) }
        ensures put { result ≡ Ok true → self.new ≡ splits.with_item room self.old
            (record { code = code; octets = entry.now }) }
        ensures same { result ≡ Ok false → self.new ≡ self.old }
    {
        let value = self.value.as_slice().len();
        let len = whole_len(&self.closed, self.code, &self.value);
        if self.code == code && value + entry.len() <= VALUE && len + entry.len() <= room {
            self.value.add(entry);
            return Ok(true);
        }
        if len + 2 + entry.len() > room {
            if self.done.len() >= FRAGMENTS - 1 {
                return Ok(false);
            }
            close(&mut self.closed, self.code, &self.value)?;
            let open = mem::replace(&mut self.closed, Octets::new(self.alloc));
            self.done.push(open)?;
        } else {
            close(&mut self.closed, self.code, &self.value)?;
        }
        self.code = code;
        self.value = draft_of(entry);
        Ok(true)
    }

    /// All fragments, the open one too.
    pub(crate) fn finish(self) -> Result<Vec<Octets>, OutOfMemory>
        ensures { IfOk result (λ all. all.items ≡ self.done ++ splits.whole self ∷ []) }
    {
        let Filling {
            alloc: _,
            mut done,
            mut closed,
            code,
            value,
        } = self;
        close(&mut closed, code, &value)?;
        done.push(closed)?;
        Ok(done)
    }
}

/// The number of octets of a fragment with its last TLV.
fn whole_len(closed: &Octets, code: u8, value: &Draft) -> usize
    requires { length closed.now ≤ 2000 }
    ensures { result ≡ length (splits.whole
        (record { done = []; closed = closed.now; code = code; value = value.now })) }
{
    if code == 0 {
        return closed.len();
    }
    closed.len() + 2 + value.as_slice().len()
}

/// Adds the last TLV, where there is one.
fn close(closed: &mut Octets, code: u8, value: &Draft) -> Result<(), OutOfMemory>
    ensures ok { OnOk result (closed.new ≡ splits.whole
        (record { done = []; closed = closed.old; code = code; value = value.now })) }
    ensures err { OnErr result (closed.new ≡ closed.old) }
{
    if code == 0 {
        return Ok(());
    }
    let value = value.as_slice();
    let before = closed.len();
    closed.extend(&[code, value.len() as u8])?;
    if let Err(fault) = closed.extend(value) {
        closed.truncate(before);
        return Err(fault);
    }
    Ok(())
}

/// A draft of an entry.
fn draft_of(entry: &[u8]) -> Draft
    requires { length entry.now ≤ 255 }
    ensures { result ≡ entry.now }
{
    let mut draft = Draft::new();
    draft.add(entry);
    draft
}
