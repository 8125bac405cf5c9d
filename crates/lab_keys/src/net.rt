//! The plain network.
ghost use Rattle.std.specs.Prelude.{◌≡◌, ℕ, List, ◌<◌, ◌≤◌, ◌+◌, true, false, length, slice_index, IfOk, IfErr, OnOk, OnErr, IsOk};
ghost use Rattle.isis_base.specs.declared.identifiers.LspId.{LspId};
ghost use Rattle.isis_base.specs.declared.key.Key.{Key};
ghost use Rattle.lab_keys.specs.declared.faults.LabFault.TheVariants.{NotSent, NotOn, Limit, OutOfMemory};
ghost use Rattle.lab_keys.specs.declared.faults.LimitName.TheVariants.{Routers, Links};
ghost use Rattle.lab_keys.specs.KeysNet.{ordered as ordered_pair, empty_net, with_router, with_link, with_copy, with_pass, has_pair, is_joined, is_at};
ghost use Rattle.lab_keys.specs.KeysHeld.{keys_at};
ghost use Rattle.lab_keys.specs.Causes.{RouterCause, LinkCause, PassCause};

use crate::faults::{LabFault, LimitName};
use crate::held::{join_in, make_room};
use isis_base::laws::lsp_id_law;
use isis_base::{Key, LspId};
use std::alloc::Global;
use std::collections::BTreeSet;
use std::marker::Model;

/// The most routers of a network.
pub const ROUTER_LIMIT: usize = 1024;

/// The most links of a network.
pub const LINK_LIMIT: usize = 4096;

/// A plain network in which numbered copies of keys are passed along links, each router keeping the newest key
/// of each LSP ID. Routers are numbered from 0, copies from 1.
#[derive(Drop)]
pub struct KeyNet {
    alloc: Global,
    held: Vec<Vec<(LspId, Key)>>,
    links: usize,
    linked: BTreeSet<(usize, usize)>,
    copies: Vec<(LspId, Key)>,
    places: BTreeSet<(usize, usize)>,
}

impl Model for KeyNet {
    ghost use Rattle.lab_keys.specs.KeysNet.{Net};

    ghost Value = { Net };

    ghost use Rattle.lab_keys.specs.Inside.{net_of, IsSoundNet};

    ghost view = { net_of };

    ghost invariant = { IsSoundNet };
}

/// Two routers, the lesser first.
fn ordered(a: usize, b: usize) -> (usize, usize)
    ensures { result ≡ ordered_pair a b }
{
    if b < a { (b, a) } else { (a, b) }
}

/// Whether the pair is there.
fn has(pairs: &BTreeSet<(usize, usize)>, pair: (usize, usize)) -> bool
    ensures { result ≡ has_pair pairs.now.keys pair.0 pair.1 }
{
    pairs.contains(&pair)
}

impl KeyNet {
    /// The network without routers.
    pub fn new(alloc: Global) -> KeyNet
        ensures { result ≡ empty_net }
    {
        KeyNet {
            alloc,
            held: Vec::new(alloc),
            links: 0,
            linked: BTreeSet::new(alloc),
            copies: Vec::new(alloc),
            places: BTreeSet::new(alloc),
        }
    }

    /// Adds a router and answers its number. `Limit(Routers)` exactly where 1,024 are there.
    pub fn add_router(&mut self) -> Result<usize, LabFault>
        ensures number { IfOk result (λ router. router ≡ self.old.routers) }
        ensures ok { OnOk result (self.new ≡ with_router self.old) }
        ensures cause { IfErr result (RouterCause self.old) }
        ensures limit { ROUTER_LIMIT ≤ self.old.routers → result ≡ Err (Limit Routers) }
        ensures err { OnErr result (self.new ≡ self.old) }
    {
        let router = self.held.len();
        if router >= ROUTER_LIMIT {
            return Err(LabFault::Limit(LimitName::Routers));
        }
        self.held.push(Vec::new(self.alloc))?;
        Ok(router)
    }

    /// Adds a link between two routers, which may have one already. `Limit(Links)` exactly where 4,096 are there.
    pub fn add_link(&mut self, ends: [usize; 2]) -> Result<(), LabFault>
        requires { (slice_index ends 0 < self.old.routers)
            × (slice_index ends 1 < self.old.routers) }
        ensures ok { OnOk result (self.new
            ≡ with_link self.old (slice_index ends 0) (slice_index ends 1)) }
        ensures cause { IfErr result (LinkCause self.old) }
        ensures limit { LINK_LIMIT ≤ self.old.links → result ≡ Err (Limit Links) }
        ensures err { OnErr result (self.new ≡ self.old) }
    {
        if self.links >= LINK_LIMIT {
            return Err(LabFault::Limit(LimitName::Links));
        }
        let [a, b] = ends;
        self.linked.insert(ordered(a, b))?;
        self.links += 1;
        Ok(())
    }

    /// Whether some link joins the two routers.
    pub fn joins(&self, a: usize, b: usize) -> bool
        ensures { result ≡ is_joined self.now a b }
    {
        has(&self.linked, ordered(a, b))
    }

    /// Makes the next copy, at a router, and answers its number.
    pub fn issue(&mut self, router: usize, id: LspId, key: Key) -> Result<usize, LabFault>
        requires { router < self.old.routers }
        ensures number { IfOk result (λ copy. copy ≡ length self.old.copies + 1) }
        ensures ok { OnOk result (self.new ≡ with_copy self.old router id key) }
        ensures cause { IfErr result (λ fault. fault ≡ OutOfMemory) }
        ensures err { OnErr result (self.new ≡ self.old) }
    {
        lsp_id_law(id);
        self.copies.reserve(1)?;
        make_room(&mut self.held[router])?;
        let copy = self.copies.len() + 1;
        self.places.insert((copy, router))?;
        join_in(&mut self.held[router], id, key);
        self.copies.push_reserved((id, key));
        Ok(copy)
    }

    /// Passes a copy from one router to another. `NotOn` exactly where no link joins the two; else `NotSent` exactly
    /// where no copy of this number is at `from`, with the number of copies made.
    pub fn pass(&mut self, copy: usize, from: usize, to: usize) -> Result<(), LabFault>
        requires { (from < self.old.routers) × (to < self.old.routers) }
        ensures ok { OnOk result (self.new ≡ with_pass self.old copy to) }
        ensures cause { IfErr result (PassCause self.old copy from to) }
        ensures refused { IsOk result → (is_joined self.old from to ≡ true)
            × (is_at self.old copy from ≡ true) }
        ensures not_on { is_joined self.old from to ≡ false → result ≡ Err NotOn }
        ensures not_sent { is_joined self.old from to ≡ true → is_at self.old copy from ≡ false
            → result ≡ Err (NotSent (length self.old.copies)) }
        ensures err { OnErr result (self.new ≡ self.old) }
    {
        if !has(&self.linked, ordered(from, to)) {
            return Err(LabFault::NotOn);
        }
        if !has(&self.places, (copy, from)) {
            let sent = self.copies.len();
            return Err(LabFault::NotSent { sent });
        }
        make_room(&mut self.held[to])?;
        let (id, key) = self.copies[copy - 1];
        self.places.insert((copy, to))?;
        join_in(&mut self.held[to], id, key);
        Ok(())
    }

    /// The keys that a router holds, by LSP ID.
    pub fn held(&self, router: usize) -> &[(LspId, Key)]
        requires { router < self.now.routers }
        ensures { result.now ≡ keys_at self.now router }
    {
        self.held[router].as_slice()
    }
}
