//! The plan of a change of the configuration.
ghost use Rattle.std.specs.Prelude.{◌≡◌, true, IfOk};
ghost use Rattle.model_router.specs.Steps.{step};
ghost use Rattle.router_routes.specs.Outlooks.{outlook_of};
ghost use Rattle.router_core.specs.Events.{change_of, FitsChange};
ghost use Rattle.router_core.specs.Givens.{given};
ghost use Rattle.router_core.specs.Plans.{AreTold, IsPlan};
ghost use Rattle.router_core.specs.Reached.{IsReached};

use crate::marks::Marks;
use crate::parts::Parts;
use crate::plan::{Deed, Plan};
use crate::reply::Reply;
use crate::told::Told;
use isis_base::OutOfMemory;
use router_desk::Change;

impl Parts {
    /// The plan of a change of the configuration (own).
    pub(crate) fn plan_change<'a>(
        &self,
        change: Change,
        asked: bool,
    ) -> Result<Plan<'a>, OutOfMemory>
        requires fits { FitsChange self.now change }
        requires reached { IsReached self.now }
        ensures { IfOk result (IsPlan asked self.now (change_of change)) }
    {
        let told = self.told_by_change(change, asked)?;
        Ok(Plan {
            deed: Deed::Change(change),
            reply: Reply::Done,
            told,
            marks: Marks::none(),
        })
    }

    /// What a change alters of what routes look at, where that is asked for: own prefixes alone.
    fn told_by_change(&self, change: Change, asked: bool) -> Result<Told, OutOfMemory>
        ensures { asked ≡ true → IfOk result (AreTold (outlook_of self.now)
            (outlook_of (step given self.now (change_of change)).router)) }
    {
        if !asked {
            return Ok(Told::Unasked);
        }
        match change {
            Change::Prefix { prefix, metric } => match self.prefixes.changed(prefix, metric) {
                Ok(own) => Ok(Told::Prefixes(own)),
                Err(error) => Err(error),
            },
            Change::Metric {
                circuit: _,
                metric: _,
            } => Ok(Told::Nothing),
            Change::Overload { on: _ } => Ok(Told::Nothing),
        }
    }
}
