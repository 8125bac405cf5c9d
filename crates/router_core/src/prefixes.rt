//! A router's own prefixes, in order.
ghost use Rattle.std.specs.Prelude.{◌≡◌, is_some, length, [], IfOk, OnOk, OnErr, map};
ghost use Rattle.model_router.specs.Maps.{find, put, erase, set_at};
ghost use Rattle.model_router.specs.Sorted.{RisesFrom};
ghost use Rattle.router_wanted.specs.Views.{prefix_pair};
ghost use Rattle.isis_base.specs.Prefixes.{prefix_number};
ghost use Rattle.router_desk.specs.Configs.{prefixes_of};

use crate::prefix_list::{copy_of, place_of, put_at, take_out};
use isis_base::{OutOfMemory, Prefix};
use std::alloc::Global;
use std::marker::Model;

/// A router's own prefixes with their metrics, in rising order of address and length. Contracts see
/// them as the router's model has them.
#[derive(Drop, Debug)]
pub(crate) struct OwnPrefixes {
    list: Vec<(Prefix, u32)>,
}

impl Model for OwnPrefixes {
    ghost use Rattle.std.specs.Prelude.{List, ℕ, map};
    ghost use Rattle.model_router.specs.Sorted.{RisesFrom};
    ghost use Rattle.router_wanted.specs.Views.{prefix_pair};

    ghost Value = { List (ℕ × ℕ) };

    ghost view = { λ p. map prefix_pair p.list.items };

    ghost invariant = { λ p. RisesFrom 0 (map prefix_pair p.list.items) };
}

impl OwnPrefixes {
    /// No prefix. It takes no memory.
    pub(crate) fn new(alloc: Global) -> OwnPrefixes
        ensures { result ≡ [] }
    {
        OwnPrefixes {
            list: Vec::new(alloc),
        }
    }

    /// The prefixes with their metrics, in order.
    pub(crate) fn as_slice(&self) -> &[(Prefix, u32)]
        ensures pairs { map prefix_pair result.now ≡ self.now }
        ensures rises { RisesFrom 0 (map prefix_pair result.now) }
    {
        self.list.as_slice()
    }

    /// The prefixes of a configuration, in order.
    pub(crate) fn of(alloc: Global, prefixes: &[(Prefix, u32)]) -> Result<OwnPrefixes, OutOfMemory>
        ensures { IfOk result (λ own. own ≡ prefixes_of prefixes.now) }
    {
        let mut own = OwnPrefixes::new(alloc);
        let mut left = prefixes.len();
        while left > 0 {
            left -= 1;
            match own.set(prefixes[left].0, prefixes[left].1) {
                Ok(()) => {}
                Err(error) => return Err(error),
            }
        }
        Ok(own)
    }

    /// Sets the metric of a prefix, which is a new one or there. At `OutOfMemory` all is as it was.
    pub(crate) fn set(&mut self, prefix: Prefix, metric: u32) -> Result<(), OutOfMemory>
        ensures ok { OnOk result (self.new ≡ put self.old (prefix_number prefix) metric) }
        ensures err { OnErr result (self.new ≡ self.old) }
    {
        put_at(&mut self.list, prefix, metric)
    }

    /// Takes a prefix out, where it is there.
    pub(crate) fn remove(&mut self, prefix: Prefix)
        ensures { self.new ≡ erase self.old (prefix_number prefix) }
    {
        take_out(&mut self.list, prefix);
    }

    /// A prefix has this metric, or is there no more. At `OutOfMemory` all is as it was.
    pub(crate) fn change(&mut self, prefix: Prefix, metric: Option<u32>) -> Result<(), OutOfMemory>
        ensures ok { OnOk result (self.new ≡ set_at self.old (prefix_number prefix) metric) }
        ensures err { OnErr result (self.new ≡ self.old) }
    {
        match metric {
            Some(metric) => self.set(prefix, metric),
            None => {
                self.remove(prefix);
                Ok(())
            }
        }
    }

    /// The prefixes after such a change.
    pub(crate) fn changed(
        &self,
        prefix: Prefix,
        metric: Option<u32>,
    ) -> Result<OwnPrefixes, OutOfMemory>
        ensures { IfOk result (λ own. own ≡ set_at self.now (prefix_number prefix) metric) }
    {
        let mut own = self.copy()?;
        match own.change(prefix, metric) {
            Ok(()) => Ok(own),
            Err(error) => Err(error),
        }
    }

    /// Whether a prefix is there.
    pub(crate) fn has(&self, prefix: Prefix) -> bool
        ensures { result ≡ is_some (find self.now (prefix_number prefix)) }
    {
        place_of(&self.list, prefix).is_ok()
    }

    /// The number of prefixes.
    pub(crate) fn len(&self) -> usize
        ensures { result ≡ length self.now }
    {
        self.list.len()
    }

    /// Equal prefixes.
    pub(crate) fn copy(&self) -> Result<OwnPrefixes, OutOfMemory>
        ensures { IfOk result (λ copy. copy ≡ self.now) }
    {
        let list = copy_of(&self.list)?;
        Ok(OwnPrefixes { list })
    }
}
