//! A configuration read from its octets.
ghost use Rattle.std.specs.Prelude.{◌≡◌, ◌⊎◌, ◌≤◌, length, Ok, Err, IfOk, IfErr, Result};
ghost use Rattle.toml.specs.View.{table_view};
ghost use Rattle.router_desk.specs.Limits.{IsValid};
ghost use Rattle.daemon_config.specs.Config.{config_of, settings_from};
ghost use Rattle.daemon_config.specs.Steps.{Stops};

use crate::circuits::read_circuits;
use crate::document::read_document;
use crate::fault::{ConfigFault, ConfigKey};
use crate::known::test_names;
use crate::lists::read_areas;
use crate::prefixes::read_prefixes;
use crate::settings::Settings;
use crate::shapes::{flag_or_false, key_if_given, wanted_text};
use isis_base::{LevelSet, SystemId};
use router_desk::Config;
use std::alloc::Global;
use toml::Table;

/// Reads the configuration that octets are the text of (TOML 1.1): exactly what `config_of` says of
/// them, or `OutOfMemory`. A configuration that is read is within the limits, and has 1 to 64
/// circuits, each with its place.
#[tactic(auto, unfolding(crate::specs::Config::config_of))]
pub fn read_config(alloc: Global, text: &[u8]) -> Result<Settings, ConfigFault>
    ensures read { IfOk result (λ settings. config_of text.now ≡ Ok settings) }
    ensures refused { IfErr result (λ fault.
        (fault ≡ ConfigFault.OutOfMemory) ⊎ (config_of text.now ≡ Err fault)) }
    ensures valid { IfOk result (λ settings. IsValid settings.config) }
    ensures placed { IfOk result (λ settings.
        length settings.places ≡ length settings.config.circuits) }
    ensures some { IfOk result (λ settings. 1 ≤ length settings.places) }
    ensures few { IfOk result (λ settings. length settings.places ≤ 64) }
{
    let document = read_document(alloc, text)?;
    test_names(&document)?;
    read_settings(alloc, &document)
}

/// The settings of a document whose tables have no other keys than they may.
#[tactic(auto, unfolding(crate::specs::Config::settings_from))]
fn read_settings(alloc: Global, top: &Table) -> Result<Settings, ConfigFault>
    ensures ok { IfOk result (λ settings. settings_from (table_view top.now) ≡ Ok settings) }
    ensures err { IfErr result (λ fault. Stops fault (settings_from (table_view top.now))) }
{
    let system = wanted_text::<SystemId>(top, ConfigKey::System)?;
    let areas = read_areas(alloc, top)?;
    let levels = wanted_text::<LevelSet>(top, ConfigKey::Level)?;
    let leak = flag_or_false(top, ConfigKey::Leak)?;
    let overload = flag_or_false(top, ConfigKey::Overload)?;
    let area_key = key_if_given(alloc, top, ConfigKey::AreaKey)?;
    let domain_key = key_if_given(alloc, top, ConfigKey::DomainKey)?;
    let circuits = read_circuits(alloc, top)?;
    let prefixes = read_prefixes(alloc, top)?;
    let config = Config {
        system,
        areas,
        levels,
        leak,
        overload,
        circuits: circuits.circuits,
        prefixes,
        area_key,
        domain_key,
    };
    Ok(Settings {
        config,
        places: circuits.places,
    })
}
