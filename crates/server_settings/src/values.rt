//! The values of a settings file, each as one of some kind.
ghost use Rattle.std.specs.Prelude.{◌≡◌, ◌≤◌, IfOk, IfSome, IsTrue};
ghost use Rattle.http_door.specs.Values.{is_value};
ghost use Rattle.toml.specs.View.{view};
ghost use Rattle.server_settings.specs.Values.{role_of, role_in, number_in, width_in, address_in, loopback_in, folder_in, origin_in, is_loopback};

use crate::address::Address;
use crate::found::copied;
use express_words::limits::{LEAST_WIDTH, MOST_WIDTH};
use express_words::{NoMemory, Role, Text};
use http_door::HeaderValue;
use std::alloc::Global;
use toml::Value;

/// A server has room for at least so many connections at once.
pub const LEAST_PLACES: u32 = 16;

/// And for at most so many.
pub const MOST_PLACES: u32 = 4096;

/// And for so many where its settings don't say.
pub const USUAL_PLACES: u32 = 1024;

fn role_of(name: &str) -> Option<Role>
    ensures { result ≡ role_of name.now }
{
    match name {
        "leader" => Some(Role::Leader),
        "helper" => Some(Role::Helper),
        _ => None,
    }
}

/// Which of the two servers.
#[tactic(auto, unfolding(crate::specs::Values::role_in))]
pub(crate) fn role_in(value: &Value) -> Option<Role>
    ensures { result ≡ role_in (view value.now) }
{
    let name = value.as_str()?;
    role_of(name)
}

/// A whole number within these bounds.
#[tactic(auto, unfolding(crate::specs::Values::number_in, crate::specs::Values::number_within))]
pub(crate) fn number_in(low: u32, high: u32, value: &Value) -> Option<u32>
    ensures value { result ≡ number_in low high (view value.now) }
    ensures low { IfSome result (λ n. low ≤ n) }
    ensures high { IfSome result (λ n. n ≤ high) }
{
    let number = value.as_integer()?;
    if number < i64::from(low) || number > i64::from(high) {
        return None;
    }
    Some(number as u32)
}

/// A message's width in bytes.
#[tactic(auto, unfolding(crate::specs::Values::width_in))]
pub(crate) fn width_in(value: &Value) -> Option<u32>
    ensures { result ≡ width_in (view value.now) }
{
    let width = number_in(LEAST_WIDTH, MOST_WIDTH, value)?;
    if width % 16 == 0 { Some(width) } else { None }
}

/// An address.
#[tactic(auto, unfolding(crate::specs::Values::address_in))]
pub(crate) fn address_in(alloc: Global, value: &Value) -> Result<Option<Address>, NoMemory>
    ensures { IfOk result (λ address. address ≡ address_in (view value.now)) }
{
    match value.as_str() {
        Some(text) => Address::of(alloc, text),
        None => Ok(None),
    }
}

/// An address that other machines don't reach.
#[tactic(auto, unfolding(crate::specs::Values::loopback_in))]
pub(crate) fn loopback_in(alloc: Global, value: &Value) -> Result<Option<Address>, NoMemory>
    ensures value { IfOk result (λ address. address ≡ loopback_in (view value.now)) }
    ensures host { IfOk result (λ address. IfSome address (λ a. IsTrue (is_loopback a))) }
{
    match address_in(alloc, value)? {
        Some(address) if address.is_loopback() => Ok(Some(address)),
        _ => Ok(None),
    }
}

/// A path, of one byte or more.
#[tactic(auto, unfolding(crate::specs::Values::folder_in))]
pub(crate) fn folder_in(alloc: Global, value: &Value) -> Result<Option<Text>, NoMemory>
    ensures { IfOk result (λ folder. folder ≡ folder_in (view value.now)) }
{
    match value.as_str() {
        Some(text) if !text.is_empty() => Ok(Some(copied(alloc, text)?)),
        _ => Ok(None),
    }
}

/// The value of a header field.
#[tactic(auto, unfolding(crate::specs::Values::origin_in))]
pub(crate) fn origin_in(alloc: Global, value: &Value) -> Result<Option<Text>, NoMemory>
    ensures value { IfOk result (λ origin. origin ≡ origin_in (view value.now)) }
    ensures field { IfOk result (λ origin. IfSome origin (λ o. IsTrue (is_value o))) }
{
    match value.as_str() {
        Some(text) if HeaderValue::of(text.as_bytes()).is_some() => Ok(Some(copied(alloc, text)?)),
        _ => Ok(None),
    }
}
