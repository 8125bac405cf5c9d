//! The configuration of a router of a lab script, before it has a circuit.
ghost use Rattle.std.specs.Prelude.{◌≡◌, IfOk, IfSome};
ghost use Rattle.std.specs.List.{AllByRecursion};
ghost use Rattle.std.specs.Option.{option_map};
ghost use Rattle.router_desk.specs.Limits.{IsValid, IsKey};
ghost use Rattle.lab_text.specs.Layouts as layout;

use isis_base::{Level, Octets, OutOfMemory};
use lab_script::{Hex, KeyScope, LabKey, LabRouter};
use router_desk::{Areas, Circuits, Config, Prefixes};
use std::alloc::Global;

/// The configuration of the router of this number.
pub(crate) fn config_of(
    alloc: Global,
    keys: &[LabKey<'_>],
    number: usize,
    router: &LabRouter<'_>,
) -> Result<Config, OutOfMemory>
    requires { AllByRecursion (λ key. IsKey key.key) keys.now }
    ensures value { IfOk result (λ config.
        config ≡ layout.config_of keys.now number router.now) }
    ensures valid { IfOk result (λ config. IsValid config) }
{
    let mut areas = Areas::new(alloc);
    areas.push(router.area)?;
    let area_key = key_of(alloc, keys, number, Level::One)?;
    let domain_key = key_of(alloc, keys, number, Level::Two)?;
    Ok(Config {
        system: router.system,
        areas,
        levels: router.levels,
        leak: router.leak,
        overload: false,
        circuits: Circuits::new(alloc),
        prefixes: Prefixes::new(alloc),
        area_key,
        domain_key,
    })
}

/// A router's key of a level: the last one that is given (own: the keys of a script are few).
fn key_of(
    alloc: Global,
    keys: &[LabKey<'_>],
    number: usize,
    level: Level,
) -> Result<Option<Octets>, OutOfMemory>
    requires { AllByRecursion (λ key. IsKey key.key) keys.now }
    ensures value { IfOk result (λ key. key ≡ layout.key_of level number keys.now) }
    ensures fits { IfOk result (λ key. IfSome key IsKey) }
{
    match last_key(keys, number, level) {
        Some(hex) => {
            let octets = hex.octets(alloc)?;
            Ok(Some(octets))
        }
        None => Ok(None),
    }
}

/// The last key of a level that is given to a router.
fn last_key<'k, 'a>(keys: &'k [LabKey<'a>], number: usize, level: Level) -> Option<&'k Hex<'a>>
    requires { AllByRecursion (λ key. IsKey key.key) keys.now }
    ensures value { option_map (λ key. key.now) result
        ≡ layout.key_of level number keys.now }
    ensures fits { IfSome result (λ key. IsKey key.now) }
{
    let mut last = None;
    for key in keys {
        if key.router == number && is_of(level, key.scope) {
            last = Some(&key.key);
        }
    }
    last
}

/// Whether a key is that of a level.
fn is_of(level: Level, scope: KeyScope) -> bool
    ensures { result ≡ layout.is_of level scope }
{
    match level {
        Level::One => match scope {
            KeyScope::Area => true,
            KeyScope::Domain | KeyScope::Circuit { place: _ } => false,
        },
        Level::Two => match scope {
            KeyScope::Domain => true,
            KeyScope::Area | KeyScope::Circuit { place: _ } => false,
        },
    }
}
