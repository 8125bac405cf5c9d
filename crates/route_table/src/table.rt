//! The table of routes, and the longest prefix of an address.

ghost use Rattle.std.specs.Prelude.{◌≡◌, ◌≤◌, [], vec_capacity, vec_len, IfOk};
ghost use Rattle.std.specs.Option.{MatchOption};
ghost use Rattle.route_table.specs.Routes.{AreRising};
ghost use Rattle.route_table.specs.Lookups.{IsLongest, HasNone};
ghost use Rattle.route_table.specs.Patches.{Fits, HaveRoom, IsPatched};

use crate::lookup::longest_place;
use crate::patch::Patches;
use crate::putting::put_all;
use crate::room::room_of;
use crate::route::Route;
use isis_base::OutOfMemory;
use std::marker::Model;

/// The routes of a router, in order of prefix, each prefix once. Contracts see it as the list of them.
#[derive(Drop, Debug)]
pub struct Routes {
    routes: Vec<Route>,
}

impl Model for Routes {
    ghost use Rattle.std.specs.Prelude.{List, vec_capacity};
    ghost use Rattle.route_table.specs.declared.route.Route.{Route};
    ghost use Rattle.route_table.specs.Patches.{HaveRoom};

    ghost Value = { List Route };

    ghost view = { λ t. t.routes.items };

    ghost invariant = { λ t. HaveRoom t.routes.items (vec_capacity t.routes) };
}

impl Routes {
    /// The routes, in order of prefix: by address, and those of one address by length.
    pub fn list(&self) -> &[Route]
        ensures same { result.now ≡ self.now }
        ensures rising { AreRising result.now }
    {
        self.routes.as_slice()
    }

    /// The route of the longest prefix that has the address (RFC 1812 5.2.4.3); `None` exactly where none has it. It takes
    /// no memory: a binary search for each length of a prefix.
    pub fn lookup(&self, address: u32) -> Option<&Route>
        ensures { MatchOption result (HasNone self.now address)
            (λ route. IsLongest self.now address route.now) }
    {
        let routes = self.routes.as_slice();
        match longest_place(routes, address) {
            Some(place) => Some(&routes[place]),
            None => None,
        }
    }

    /// Puts in what some prefixes' routes become. It takes no memory.
    pub fn put(&mut self, patches: Patches)
        requires { Fits self.old patches }
        ensures { IsPatched self.old patches.list self.new }
    {
        exchange(&mut self.routes, patches);
    }

    /// An equal table.
    pub fn copy(&self) -> Result<Routes, OutOfMemory>
        ensures { IfOk result (λ copy. copy ≡ self.now) }
    {
        let alloc = *self.routes.allocator();
        let many = room_of(self.routes.len())?;
        let mut routes = match Vec::with_capacity(alloc, many) {
            Ok(routes) => routes,
            Err(_) => return Err(OutOfMemory),
        };
        for route in self.routes.as_slice() {
            let route = match route.copy() {
                Ok(route) => route,
                Err(error) => return Err(error),
            };
            match routes.push(route) {
                Ok(()) => {}
                Err(_) => return Err(OutOfMemory),
            }
        }
        Ok(Routes { routes })
    }
}

/// Routes with patches put in.
fn exchange(routes: &mut Vec<Route>, patches: Patches)
    requires room { HaveRoom routes.old.items (vec_capacity routes.old) }
    requires fits { Fits routes.old.items patches }
    ensures patched { IsPatched routes.old.items patches.list routes.new.items }
    ensures room { HaveRoom routes.new.items (vec_capacity routes.new) }
{
    let Patches { list, room } = patches;
    match room {
        Some(room) => {
            move_to(routes, room);
            put_all(routes, list)
        }
        None => put_all(routes, list),
    }
}

/// Routes, moved into room that was taken for them.
fn move_to(routes: &mut Vec<Route>, room: Vec<Route>)
    requires empty { room.items ≡ [] }
    requires fits { vec_len routes.old ≤ vec_capacity room }
    ensures same { routes.new.items ≡ routes.old.items }
    ensures room { vec_capacity room ≤ vec_capacity routes.new }
{
    let mut later = room;
    later.append(routes).unwrap();
    *routes = later;
}

/// The table of routes, with room for as many as a table of them has.
pub fn of(mut routes: Vec<Route>) -> Result<Routes, OutOfMemory>
    requires { AreRising routes.items }
    ensures { IfOk result (λ table. table ≡ routes.items) }
{
    let many = room_of(routes.len())?;
    let more = many - routes.len();
    match routes.reserve_exact(more) {
        Ok(()) => Ok(Routes { routes }),
        Err(_) => Err(OutOfMemory),
    }
}
