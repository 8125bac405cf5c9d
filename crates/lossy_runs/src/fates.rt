//! The fates of deliveries.
ghost use Rattle.std.specs.Prelude.{◌≡◌, ℕ, List, [], drop, if◌then◌else◌, IfOk, IfErr};
ghost use Rattle.model_router.specs.Givens.{Given};
ghost use Rattle.model_network.specs.Networks.{Network};
ghost use Rattle.model_network.specs.Runs.{Deliver, apply};
ghost use Rattle.lossy_runs.specs.LossyRuns.{with_fate};
ghost use Rattle.lossy_runs.specs.Endings.{fated};

use crate::loss::Loss;
use losses::Stop;
use std::alloc::Global;
use std::marker::Model;

/// The fates of the deliveries to come, and which deliveries were lost.
#[derive(Drop)]
pub(crate) struct Fates<'f> {
    list: &'f [bool],
    place: usize,
    lost: Vec<Loss>,
}

impl<'f> Model for Fates<'f> {
    ghost use Rattle.std.specs.Prelude.{drop};
    ghost use Rattle.lossy_runs.specs.Rest.{Rest};

    ghost Value = { Rest };

    ghost view = { λ f. record { fates = drop f.place f.list.now; place = f.place; lost = f.lost.items } };
}

impl<'f> Fates<'f> {
    /// All fates of a list. It takes no memory.
    pub fn new(alloc: Global, list: &'f [bool]) -> Fates<'f>
        ensures { result ≡ record { fates = list.now; place = 0; lost = [] } }
    {
        Fates {
            list,
            place: 0,
            lost: Vec::new(alloc),
        }
    }

    /// How many deliveries came up.
    pub fn place(&self) -> usize
        ensures { result ≡ self.now.place }
    {
        self.place
    }

    /// The deliveries that were lost, in order.
    pub fn into_lost(self) -> Vec<Loss>
        ensures { result.items ≡ self.entry.lost }
    {
        self.lost
    }

    /// Whether the next delivery, of this datagram to this router, is lost.
    pub fn next(&mut self, datagram: usize, router: usize) -> Result<bool, Stop>
        ensures fate { IfOk result (λ lost. (given : Given) (net : Network)
            → with_fate given datagram router (fated net self.old)
            ≡ fated (if lost then net else apply given net (Deliver datagram router)) self.new) }
        ensures memory { IfErr result (λ stop. stop ≡ Stop.OutOfMemory) }
    {
        let place = self.place;
        if place == usize::MAX {
            return Err(Stop::OutOfMemory);
        }
        if place >= self.list.len() {
            self.place = place + 1;
            return Ok(false);
        }
        if !self.list[place] {
            self.place = place + 1;
            return Ok(false);
        }
        let loss = Loss {
            place,
            datagram,
            router,
        };
        match self.lost.push(loss) {
            Ok(()) => {}
            Err(_) => return Err(Stop::OutOfMemory),
        }
        self.place = place + 1;
        Ok(true)
    }
}
