//! The router of a configuration, at its start.
ghost use Rattle.std.specs.Prelude.{◌≡◌, ◌⊎◌, ◌≤◌, IfOk, IfErr, Ok, Err};
ghost use Rattle.daemon_config.specs.Config.{config_of};
ghost use Rattle.daemon_config.specs.declared.settings.Settings.{Settings};
ghost use Rattle.model_router.specs.Starts.{start};
ghost use Rattle.router_desk.specs.Configs as desk;
ghost use Rattle.router_desk.specs.Limits.{IsValid};
ghost use Rattle.state_replay.specs.declared.fault.StateFault.{StateFault};
ghost use Rattle.state_replay.specs.Faults.{IsConfigFault};

use crate::fault::StateFault;
use daemon_config::{ConfigFault, Settings, read_config};
use router_core::Router;
use router_desk::Config;
use std::alloc::Global;

/// The router of the configuration that a text is read as, in a boot.
pub(crate) fn open(alloc: Global, text: &[u8], boot: u32) -> Result<Router, StateFault>
    requires { (1 ≤ boot) × (boot ≤ 16777215) }
    ensures start { IfOk result (λ router. (settings : Settings)
        × (config_of text.now ≡ Ok settings)
        × (router ≡ start (desk.config_of settings.config) boot (desk.circuits_of settings.config))) }
    ensures err { IfErr result (λ fault. (fault ≡ StateFault.OutOfMemory)
        ⊎ IsConfigFault (config_of text.now) fault) }
{
    let settings = match read_config(alloc, text) {
        Ok(settings) => settings,
        Err(ConfigFault::Refused { kind, key }) => return Err(StateFault::Config { kind, key }),
        Err(ConfigFault::OutOfMemory) => return Err(StateFault::OutOfMemory),
    };
    let Settings { config, places } = settings;
    drop(places);
    start_router(alloc, config, boot)
}

/// The router of a configuration, in a boot.
fn start_router(alloc: Global, config: Config, boot: u32) -> Result<Router, StateFault>
    requires valid { IsValid config }
    requires boot { (1 ≤ boot) × (boot ≤ 16777215) }
    ensures start { IfOk result (λ router. router
        ≡ start (desk.config_of config) boot (desk.circuits_of config)) }
    ensures err { IfErr result (λ fault. fault ≡ StateFault.OutOfMemory) }
{
    match Router::new(alloc, config, boot) {
        Ok(router) => Ok(router),
        Err(back) => {
            drop(back.0);
            Err(StateFault::OutOfMemory)
        }
    }
}
