//! The shapes of keys: wanted or not, and a text, a flag or a number.
ghost use Rattle.std.specs.Prelude.{◌≡◌, ◌≤◌, ◌⊎◌, false, None, Ok, Err, IfOk, IfErr, Result};
ghost use Rattle.std.specs.Option.{option_map};
ghost use Rattle.toml.specs.View.{view, table_view};
ghost use Rattle.daemon_config.specs.Fields.{key_of};
ghost use Rattle.daemon_config.specs.Seen.{value_seen, text_seen};
ghost use Rattle.daemon_config.specs.Shapes.{found, wanted, otherwise, perhaps, text, letters, flag, number};
ghost use Rattle.daemon_config.specs.Steps.{or_refused, Stops};

use crate::fault::{ConfigFault, ConfigKey, ConfigKind, refused};
use crate::fields::{FromText, read_key};
use isis_base::Octets;
use std::alloc::Global;
use toml::{Table, Value};

/// What a table has at a key.
pub(crate) fn found<'a>(table: &'a Table, key: ConfigKey) -> Option<&'a Value>
    ensures { option_map (λ v. view v.now) result ≡ found key (table_view table.now) }
{
    table.get(key.name())
}

/// What a table has at a key that it must have.
pub(crate) fn wanted<'a>(table: &'a Table, key: ConfigKey) -> Result<&'a Value, ConfigFault>
    ensures { value_seen result
        ≡ or_refused ConfigKind.Missing key (found key (table_view table.now)) }
{
    match found(table, key) {
        Some(value) => Ok(value),
        None => refused(ConfigKind::Missing, key),
    }
}

/// A text.
pub(crate) fn letters<'a>(value: &'a Value, key: ConfigKey) -> Result<&'a str, ConfigFault>
    ensures { text_seen result ≡ letters key (view value.now) }
{
    match value.as_str() {
        Some(text) => Ok(text),
        None => refused(ConfigKind::Kind, key),
    }
}

/// What letters say.
pub(crate) fn said<T: FromText>(letters: &str, key: ConfigKey) -> Result<T, ConfigFault>
    ensures { result ≡ or_refused ConfigKind.Value key (T.says letters.now) }
{
    match T::from_text(letters) {
        Some(said) => Ok(said),
        None => refused(ConfigKind::Value, key),
    }
}

/// A text that says something.
pub(crate) fn text<T: FromText>(value: &Value, key: ConfigKey) -> Result<T, ConfigFault>
    ensures { result ≡ text T.says key (view value.now) }
{
    match letters(value, key) {
        Ok(letters) => said(letters, key),
        Err(fault) => Err(fault),
    }
}

/// A text that says something, at a key that a table must have.
pub(crate) fn wanted_text<T: FromText>(table: &Table, key: ConfigKey) -> Result<T, ConfigFault>
    ensures { result ≡ wanted key (text T.says) (table_view table.now) }
{
    match wanted(table, key) {
        Ok(value) => text(value, key),
        Err(fault) => Err(fault),
    }
}

/// A text that says something, at a key that a table may lack.
pub(crate) fn text_if_given<T: FromText>(
    table: &Table,
    key: ConfigKey,
) -> Result<Option<T>, ConfigFault>
    ensures { result ≡ perhaps key (text T.says) (table_view table.now) }
{
    let Some(value) = found(table, key) else {
        return Ok(None);
    };
    match text(value, key) {
        Ok(said) => Ok(Some(said)),
        Err(fault) => Err(fault),
    }
}

/// The octets of a key in hex.
fn key_octets(alloc: Global, value: &Value, key: ConfigKey) -> Result<Octets, ConfigFault>
    ensures ok { IfOk result (λ octets. text key_of key (view value.now) ≡ Ok octets) }
    ensures err { IfErr result (λ fault. Stops fault (text key_of key (view value.now))) }
{
    let letters = match letters(value, key) {
        Ok(letters) => letters,
        Err(fault) => return Err(fault),
    };
    match read_key(alloc, letters) {
        Ok(Some(octets)) => Ok(octets),
        Ok(None) => refused(ConfigKind::Value, key),
        Err(_) => Err(ConfigFault::OutOfMemory),
    }
}

/// The octets of a key in hex, at a key that a table may lack.
pub(crate) fn key_if_given(
    alloc: Global,
    table: &Table,
    key: ConfigKey,
) -> Result<Option<Octets>, ConfigFault>
    ensures ok { IfOk result (λ octets.
        perhaps key (text key_of) (table_view table.now) ≡ Ok octets) }
    ensures err { IfErr result (λ fault.
        Stops fault (perhaps key (text key_of) (table_view table.now))) }
{
    let Some(value) = found(table, key) else {
        return Ok(None);
    };
    match key_octets(alloc, value, key) {
        Ok(octets) => Ok(Some(octets)),
        Err(fault) => Err(fault),
    }
}

/// A flag, at a key that a table may lack; false where it does.
pub(crate) fn flag_or_false(table: &Table, key: ConfigKey) -> Result<bool, ConfigFault>
    ensures { result ≡ otherwise false key flag (table_view table.now) }
{
    let Some(value) = found(table, key) else {
        return Ok(false);
    };
    match value.as_bool() {
        Some(on) => Ok(on),
        None => refused(ConfigKind::Kind, key),
    }
}

/// A number from 0 up to a greatest.
fn number(value: &Value, key: ConfigKey, most: u32) -> Result<u32, ConfigFault>
    ensures value { result ≡ number most key (view value.now) }
    ensures within { IfOk result (λ n. n ≤ most) }
{
    let Some(number) = value.as_integer() else {
        return refused(ConfigKind::Kind, key);
    };
    match u32::try_from(number) {
        Ok(number) if number <= most => Ok(number),
        _ => refused(ConfigKind::Value, key),
    }
}

/// A number from 0 up to a greatest, at a key that a table may lack, with what then holds.
pub(crate) fn number_or(
    table: &Table,
    key: ConfigKey,
    default: u32,
    most: u32,
) -> Result<u32, ConfigFault>
    requires { default ≤ most }
    ensures value { result ≡ otherwise default key (number most) (table_view table.now) }
    ensures within { IfOk result (λ n. n ≤ most) }
{
    match found(table, key) {
        Some(value) => number(value, key, most),
        None => Ok(default),
    }
}
