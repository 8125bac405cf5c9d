//! The routers of a lab script so far, and their look-ups.
ghost use Rattle.std.specs.Prelude.{◌≡◌, ◌<◌, None, false, [], ◌∷◌, ◌++◌, length, IfSome, OnOk, OnErr};
ghost use Rattle.lab_script.specs.LabScripts.{router_names, has_system};
ghost use Rattle.lab_script.specs.Names.{number_of_name};
ghost use Rattle.line_cuts.specs.Words.{texts};

use crate::names::Names;
use crate::setup::LabRouter;
use isis_base::SystemId;
use std::alloc::{AllocError, Global};
use std::collections::HashSet;
use std::marker::Model;

/// The routers so far, and look-ups by their names and system IDs. Contracts see the list.
#[derive(Drop)]
pub(crate) struct Routers<'a> {
    list: Vec<LabRouter<'a>>,
    names: Names<'a>,
    systems: HashSet<SystemId>,
}

impl<'a> Model for Routers<'a> {
    ghost use Rattle.std.specs.Prelude.{List};
    ghost use Rattle.lab_script.specs.declared.setup.LabRouter.{LabRouter};

    ghost Value = { List LabRouter };

    ghost view = { λ routers. routers.list.items };

    ghost use Rattle.lab_script.specs.RouterIndex.{AreRoutersIndexed};

    ghost invariant = { AreRoutersIndexed };
}

impl<'a> Routers<'a> {
    /// No routers.
    pub(crate) fn new(alloc: Global) -> Routers<'a>
        ensures { result ≡ [] }
    {
        Routers {
            list: Vec::new(alloc),
            names: Names::new(alloc),
            systems: HashSet::new(alloc),
        }
    }

    /// The number of the router of a name.
    pub(crate) fn find(&self, name: &str) -> Option<usize>
        ensures value { result ≡ number_of_name (router_names self.now) name.now }
        ensures there { IfSome result (λ router. router < length self.now) }
    {
        self.names.find(name)
    }

    /// Whether some router has this system ID.
    pub(crate) fn has_system(&self, system: &SystemId) -> bool
        ensures { result ≡ has_system self.now system.now }
    {
        self.systems.contains(system)
    }

    /// How many there are.
    pub(crate) fn count(&self) -> usize
        ensures { result ≡ length self.now }
    {
        self.list.len()
    }

    /// Adds a router of a new name and system ID.
    pub(crate) fn add(&mut self, router: LabRouter<'a>) -> Result<(), AllocError>
        requires name { number_of_name (router_names self.old) router.name ≡ None }
        requires system { has_system self.old router.system ≡ false }
        ensures ok { OnOk result (self.new ≡ self.old ++ router.entry ∷ []) }
        ensures err { OnErr result (self.new ≡ self.old) }
    {
        self.list.reserve(1)?;
        self.systems.reserve(1)?;
        self.names.add(router.name.letters())?;
        match self.systems.insert(router.system) {
            Ok(_) => {}
            Err(_) => unreachable!(),
        }
        self.list.push_reserved(router);
        Ok(())
    }

    /// The routers, in the order of their numbers.
    pub(crate) fn list(&self) -> &[LabRouter<'a>]
        ensures { result.now ≡ self.now }
    {
        self.list.as_slice()
    }

    /// Their names, in the same order.
    pub(crate) fn names(&self) -> &[&'a str]
        ensures { texts result.now ≡ router_names self.now }
    {
        self.names.list()
    }
}
