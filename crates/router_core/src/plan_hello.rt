//! What a hello will do: it is dropped, or taken.
ghost use Rattle.std.specs.Prelude.{◌≡◌, ◌-◌, Bool, true, false, IfSome};
ghost use Rattle.model_router.specs.Events as model;
ghost use Rattle.model_router.specs.Places.{nth};
ghost use Rattle.router_desk.specs.Heard.{hello_heard};
ghost use Rattle.router_core.specs.Events.{IsThere};
ghost use Rattle.router_core.specs.Plans.{IsPlan};
ghost use Rattle.router_core.specs.Reached.{IsReached};
ghost use Rattle.router_core.specs.Settled.{AreTrue};

use crate::marks::Marks;
use crate::parts::Parts;
use crate::plan::{Deed, Plan};
use crate::reached::outlook_laws;
use crate::reply::Reply;
use crate::told::Told;
use isis_base::Level;
use router_circuits::hello_sizes;
use router_desk::{DropCause, HelloHeard};

impl Parts {
    /// The plan of a point-to-point hello (ISO 10589 8.2.4). Marks stay where own LSPs will say the same of the adjacency.
    pub(crate) fn plan_point_hello<'a>(
        &self,
        circuit: u8,
        hello: &'a HelloHeard,
        marks: Marks,
    ) -> Plan<'a>
        requires there { IsThere self.now circuit }
        requires kind { IfSome (nth self.now.circuits (circuit - 1)) (λ c. c.lan ≡ false) }
        requires reached { IsReached self.now }
        requires marks { AreTrue marks self.now }
        ensures { (asked : Bool) → IsPlan asked self.now
            (model.Take (circuit - 1) (model.PointHelloHeard (hello_heard hello.now))) result }
    {
        outlook_laws();
        let fields = hello.fields();
        hello_sizes(&fields);
        match self.test_point(circuit, &fields) {
            Ok(alike) => Plan {
                deed: Deed::PointHello { circuit, hello },
                reply: Reply::Done,
                told: Told::Nothing,
                marks: marks.or(alike, Marks::none()),
            },
            Err(refused) => self.plan_drop(DropCause::Hello(refused), marks),
        }
    }

    /// The plan of a hello of a level on a LAN (ISO 10589 8.4.2).
    pub(crate) fn plan_lan_hello<'a>(
        &self,
        circuit: u8,
        level: Level,
        hello: &'a HelloHeard,
        marks: Marks,
    ) -> Plan<'a>
        requires there { IsThere self.now circuit }
        requires kind { IfSome (nth self.now.circuits (circuit - 1)) (λ c. c.lan ≡ true) }
        requires reached { IsReached self.now }
        requires marks { AreTrue marks self.now }
        ensures { (asked : Bool) → IsPlan asked self.now
            (model.Take (circuit - 1) (model.LanHelloHeard level (hello_heard hello.now))) result }
    {
        outlook_laws();
        let fields = hello.fields();
        hello_sizes(&fields);
        match self.test_lan(circuit, level, &fields) {
            Ok(()) => Plan {
                deed: Deed::LanHello {
                    circuit,
                    level,
                    hello,
                },
                reply: Reply::Done,
                told: Told::Nothing,
                marks: Marks::none(),
            },
            Err(refused) => self.plan_drop(DropCause::Hello(refused), marks),
        }
    }
}
