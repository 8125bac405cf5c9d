//! What always holds of a router, at its start and after each step: functions without effect.
ghost use Rattle.std.specs.Prelude.{◌≡◌, ℕ, ◌^◌, ◌<◌};
ghost use Rattle.std.specs.List.{AllByRecursion};
ghost use Rattle.isis_tlv.specs.Fits.{IsArea};
ghost use Rattle.model_router.specs.Routers as model;
ghost use Rattle.model_router.specs.Starts.{start};
ghost use Rattle.model_router.specs.Steps.{step};
ghost use Rattle.model_router.specs.Numbers.{system_number};
ghost use Rattle.router_desk.specs.Configs.{config_of, circuits_of};
ghost use Rattle.router_desk.specs.Limits.{IsValid};
ghost use Rattle.router_core.specs.declared.event.NodeEvent as node;
ghost use Rattle.model_router.specs.Events.{Event};
ghost use Rattle.router_routes.specs.Outlooks.{outlook_of};
ghost use Rattle.router_core.specs.Calm.{IsCalm};
ghost use Rattle.router_core.specs.Events.{event_of, Fits};
ghost use Rattle.router_core.specs.Givens.{given};
ghost use Rattle.router_core.specs.Heard.{HasOctets};
ghost use Rattle.router_core.specs.Reached.{IsReached};

use crate::event::NodeEvent;
use isis_base::laws::{lsp_id_law, octets_law};
use isis_base::{AreaAddress, LspId, NodeId, SystemId};
use router_desk::Config;

/// At its start, of a valid configuration, in a boot of three octets.
pub(crate) fn start_reached(config: &Config, boot: u32)
    requires valid { IsValid config.now }
    requires boot { boot < 2 ^ 24 }
    ensures { IsReached (start (config_of config.now) boot (circuits_of config.now)) }
{
    areas_law(config.areas.as_slice());
    small_system_law(config.system);
}

/// At another start, and after each step.
pub(crate) fn reached_laws()
    ensures restart { (r : model.Router) (boot : ℕ) → IsReached r → boot < 2 ^ 24
        → IsReached (start r.config boot r.circuits) }
    ensures step { (r : model.Router) (event : node.NodeEvent) → IsReached r → Fits r event
        → HasOctets event → IsReached (step given r (event_of r event)).router }
{}

/// What routes look at stays at an event that is calm: it changes no key and no own prefix.
pub(crate) fn outlook_laws()
    ensures calm { (r : model.Router) (event : Event) → IsReached r → IsCalm r event
        → outlook_of (step given r event).router ≡ outlook_of r }
{}

/// The octets of what is taken are octets.
pub(crate) fn event_octets(event: &NodeEvent)
    ensures { HasOctets event.now }
{
    match event {
        NodeEvent::Take(opened) => octets_law(opened.octets()),
        NodeEvent::Second | NodeEvent::Pull { circuit: _ } | NodeEvent::Change(_) => {}
    }
}

/// Area addresses have one to 13 octets (ISO 10589 7.1.5).
fn areas_law(areas: &[AreaAddress])
    ensures { AllByRecursion IsArea areas.now }
{
    for place in 0..areas.len() {
        areas[place].octets();
    }
}

/// A system ID has six octets (ISO 10589 7.1).
fn small_system_law(system: SystemId)
    ensures { system_number system < 2 ^ 48 }
{
    let node = NodeId {
        system,
        pseudonode: 0,
    };
    let first = LspId { node, number: 0 };
    lsp_id_law(first);
    first.to_number();
}
