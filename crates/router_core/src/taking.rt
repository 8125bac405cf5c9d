//! Hellos that pass their tests are taken.
ghost use Rattle.std.specs.Prelude.{◌≡◌, ◌-◌, OnOk, OnErr};
ghost use Rattle.model_router.specs.Events as model;
ghost use Rattle.model_router.specs.Steps.{step};
ghost use Rattle.router_desk.specs.Heard.{hello_heard};
ghost use Rattle.router_core.specs.Givens.{given};
ghost use Rattle.router_core.specs.Plans.{IsHelloReady};

use crate::parts::Parts;
use isis_base::{Level, OutOfMemory};
use router_circuits::hello_sizes;
use router_desk::HelloHeard;

impl Parts {
    /// A point-to-point hello is taken (ISO 10589 8.2.4). At `OutOfMemory` the router is as it was.
    pub(crate) fn take_point_hello(
        &mut self,
        circuit: u8,
        hello: &HelloHeard,
    ) -> Result<(), OutOfMemory>
        requires { IsHelloReady self.old circuit (model.PointHelloHeard (hello_heard hello.now)) }
        ensures state { OnOk result (self.new ≡ (step given self.old
            (model.Take (circuit - 1) (model.PointHelloHeard (hello_heard hello.now)))).router) }
        ensures err { OnErr result (self.new ≡ self.old) }
    {
        let fields = hello.fields();
        hello_sizes(&fields);
        self.take_point(circuit, &fields)
    }

    /// A hello of a level is taken on a LAN (ISO 10589 8.4.2). At `OutOfMemory` the router is as it was.
    pub(crate) fn take_lan_hello(
        &mut self,
        circuit: u8,
        level: Level,
        hello: &HelloHeard,
    ) -> Result<(), OutOfMemory>
        requires { IsHelloReady self.old circuit
            (model.LanHelloHeard level (hello_heard hello.now)) }
        ensures state { OnOk result (self.new ≡ (step given self.old (model.Take (circuit - 1)
            (model.LanHelloHeard level (hello_heard hello.now)))).router) }
        ensures err { OnErr result (self.new ≡ self.old) }
    {
        let fields = hello.fields();
        hello_sizes(&fields);
        self.take_lan(circuit, level, &fields)
    }
}
