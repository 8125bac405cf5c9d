//! Changes of the configuration.
ghost use Rattle.std.specs.Prelude.{◌≡◌, ◌≤◌, ◌-◌, IfSome, OnOk, OnErr};
ghost use Rattle.model_router.specs.Places.{nth};
ghost use Rattle.model_router.specs.Routers.{with_circuit};
ghost use Rattle.model_router.specs.Steps.{step, with_prefix};
ghost use Rattle.isis_base.specs.Prefixes.{prefix_number};
ghost use Rattle.router_core.specs.Events.{change_of, FitsChange, IsThere};
ghost use Rattle.router_core.specs.Givens.{given};
ghost use Rattle.router_core.specs.Reached.{IsReached};

use crate::at::set_metric_at;
use crate::parts::Parts;
use isis_base::{OutOfMemory, Prefix};
use router_desk::Change;

impl Parts {
    /// A change of the configuration (own). At `OutOfMemory` the router is as it was.
    pub(crate) fn change(&mut self, change: Change) -> Result<(), OutOfMemory>
        requires fits { FitsChange self.old change }
        requires reached { IsReached self.old }
        ensures state { OnOk result
            (self.new ≡ (step given self.old (change_of change)).router) }
        ensures err { OnErr result (self.new ≡ self.old) }
    {
        match change {
            Change::Metric { circuit, metric } => {
                self.set_metric(circuit, metric);
                Ok(())
            }
            Change::Prefix { prefix, metric } => self.set_prefix(prefix, metric),
            Change::Overload { on } => {
                self.set_overload(on);
                Ok(())
            }
        }
    }

    /// The metric of a circuit.
    fn set_metric(&mut self, circuit: u8, metric: u32)
        requires there { IsThere self.old circuit }
        requires metric { metric ≤ 16777215 }
        ensures { IfSome (nth self.old.circuits (circuit - 1)) (λ c.
            self.new ≡ with_circuit self.old (circuit - 1) (record c { metric = metric })) }
    {
        set_metric_at(&mut self.circuits, circuit, metric);
    }

    /// An own prefix with its metric, or without it no more.
    fn set_prefix(&mut self, prefix: Prefix, metric: Option<u32>) -> Result<(), OutOfMemory>
        ensures ok { OnOk result (self.new
            ≡ with_prefix self.old (prefix_number prefix) metric) }
        ensures err { OnErr result (self.new ≡ self.old) }
    {
        self.prefixes.change(prefix, metric)
    }

    /// Whether overload is set (ISO 10589 7.3.19).
    fn set_overload(&mut self, on: bool)
        ensures { self.new ≡ record self.old { config = record self.old.config { overload = on } } }
    {
        self.overload = on;
    }
}
