//! The sizes of fields, and hellos in the model's words.
ghost use Rattle.std.specs.Prelude.{◌≡◌, ℕ, ◌<◌, ◌^◌, Bool, IfSome};
ghost use Rattle.model_router.specs.Adjacencies as model;
ghost use Rattle.model_router.specs.Both.{Both};
ghost use Rattle.model_router.specs.Configs.{Config};
ghost use Rattle.adjacency.specs.Views as views;
ghost use Rattle.router_circuits.specs.Hellos.{IsAlike, IsOwn, hello_of};
ghost use Rattle.router_circuits.specs.Views.{IsSized};

use crate::numbers::node_to_number;
use adjacency::{HelloFields, Neighbour, Own, P2pAdj};
use designated_is::{snpa_to_number, system_to_number};

/// A hello's fields have the standard's sizes, and both ways to see it as the model's are one.
pub fn hello_sizes(hello: &HelloFields<'_>)
    ensures same { views.hello_of hello.now ≡ hello_of hello.now }
    ensures sized { (common : Both Bool) (extended : ℕ) → extended < 2 ^ 32
        → IsSized (model.neighbour_of (hello_of hello.now) common extended) }
{
    let hello = *hello;
    system_to_number(hello.source);
    snpa_to_number(hello.snpa);
    node_to_number(hello.lan);
    number_sizes(hello.priority, hello.holding);
}

/// A priority has one octet, a holding time two.
fn number_sizes(priority: u8, holding: u16)
    ensures priority { priority < 2 ^ 8 }
    ensures holding { holding < 2 ^ 16 }
{}

/// Both ways to see one's own part of a configuration are one.
pub(crate) fn own_words(own: &Own<'_>)
    ensures { (config : Config) → IsOwn config own.now → IsAlike (views.config_of own.now) config }
{}

/// The fields of a point-to-point neighbour have the standard's sizes.
pub(crate) fn point_sizes(point: &P2pAdj)
    ensures { IfSome (views.point_of point.now).neighbour IsSized }
{
    if let Some(neighbour) = point.neighbour() {
        neighbour_sizes(*neighbour);
    }
}

fn neighbour_sizes(neighbour: Neighbour)
    ensures { IsSized (views.neighbour_of neighbour) }
{
    system_to_number(neighbour.system);
    snpa_to_number(neighbour.snpa);
    node_to_number(neighbour.lan);
}
