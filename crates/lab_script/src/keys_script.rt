//! A keys script, line by line.
ghost use Rattle.std.specs.Prelude.{◌≡◌, ◌<◌, ◌≤◌, false, Err, length, IfSome, Some};
ghost use Rattle.std.specs.Option.{option_map};
ghost use Rattle.std.specs.List.{slice_get};
ghost use Rattle.lab_script.specs.Gives.{Gives};
ghost use Rattle.lab_script.specs.KeysJudged as judged;
ghost use Rattle.lab_script.specs.KeysJudged.{nothing_said};
ghost use Rattle.lab_script.specs.KeysScripts as script;
ghost use Rattle.lab_script.specs.KeysSound.{IsSound};
ghost use Rattle.lab_script.specs.Names.{number_of_name};
ghost use Rattle.lab_script.specs.KeysLines.{line_of};
ghost use Rattle.line_cuts.specs.Words.{texts, words_of};
ghost use Rattle.lab_script.specs.declared.line.KeysLine.TheVariants.{Router, Link, Issue, Pass};

use crate::events::{EventLine, KeyEvent};
use crate::forms::read_line;
use crate::line::KeysLine;
use crate::links::Links;
use crate::names::Names;
use crate::reason::{Reason, ScriptFault, limited, refused};
use isis_base::{Key, LspId};
use lab_keys::{LINK_LIMIT, LimitName, ROUTER_LIMIT};
use std::alloc::Global;
use std::marker::Model;

/// A keys script: what its lines say. Contracts see the routers' names, the links by the numbers of their ends, and the
/// events with the numbers of their lines.
#[derive(Drop)]
pub struct KeysScript<'a> {
    routers: Names<'a>,
    links: Links,
    events: Vec<EventLine>,
}

impl<'a> Model for KeysScript<'a> {
    ghost use Rattle.lab_script.specs.KeysJudged.{KeysScript as Said};

    ghost Value = { Said };

    ghost view = { λ a. record { routers = a.routers; links = a.links; events = a.events.items } };

    ghost use Rattle.lab_script.specs.KeysSound.{IsSound};

    ghost invariant = { λ a. IsSound
        (record { routers = a.routers; links = a.links; events = a.events.items }) };
}

impl<'a> KeysScript<'a> {
    /// A keys script that says nothing yet.
    pub(crate) fn new(alloc: Global) -> KeysScript<'a>
        ensures { result ≡ nothing_said }
    {
        KeysScript {
            routers: Names::new(alloc),
            links: Links::new(alloc),
            events: Vec::new(alloc),
        }
    }

    /// The number of the router of a name.
    pub(crate) fn router(&self, name: &str) -> Option<usize>
        ensures { result ≡ number_of_name self.now.routers name.now }
    {
        self.routers.find(name)
    }

    /// The routers' names, in the order of their numbers.
    pub fn names(&self) -> &[&'a str]
        ensures names { texts result.now ≡ self.now.routers }
        ensures few { length result.now ≤ 1024 }
    {
        self.routers.list()
    }

    /// The links by the numbers of their ends.
    pub fn links(&self) -> &[(usize, usize)]
        ensures links { result.now ≡ self.now.links }
        ensures sound { IsSound self.now }
    {
        self.links.list()
    }

    /// The events, in order.
    pub fn events(&self) -> &[EventLine]
        ensures { result.now ≡ self.now.events }
    {
        self.events.as_slice()
    }

    /// Takes a line.
    pub(crate) fn hear(&mut self, number: usize, text: &'a [u8]) -> Result<(), ScriptFault>
        ensures { Gives result self.new
            (script.hear_line self.old number (line_of (words_of text.now))) }
    {
        let Some(line) = read_line(text) else {
            return refused(number, Reason::Form);
        };
        self.hear_line(number, line)
    }

    fn hear_line(&mut self, number: usize, line: KeysLine<'a>) -> Result<(), ScriptFault>
        ensures { Gives result self.new (script.hear_line self.old number (Some line.entry)) }
    {
        match line {
            KeysLine::Router { name } => self.hear_router(number, name.letters()),
            KeysLine::Link { first, second } => {
                self.hear_link(number, first.letters(), second.letters())
            }
            KeysLine::Issue { router, id, key } => {
                self.hear_issue(number, router.letters(), id, key)
            }
            KeysLine::Pass { copy, from, to } => {
                self.hear_pass(number, copy, from.letters(), to.letters())
            }
        }
    }

    fn hear_router(&mut self, number: usize, name: &'a str) -> Result<(), ScriptFault>
        ensures { Gives result self.new
            (script.hear_line self.old number (Some (Router name.now))) }
    {
        if self.routers.find(name).is_some() {
            return refused(number, Reason::Again);
        }
        if self.routers.count() >= ROUTER_LIMIT {
            return limited(LimitName::Routers);
        }
        self.routers.add(name)?;
        Ok(())
    }

    /// The numbers of two routers.
    fn both(&self, a: &str, b: &str) -> Option<(usize, usize)>
        ensures value { result
            ≡ judged.both (number_of_name self.now.routers a.now)
            (number_of_name self.now.routers b.now) }
        ensures there { IfSome result (λ ends. (ends.0 < length self.now.routers)
            × (ends.1 < length self.now.routers)) }
    {
        let a = self.routers.find(a)?;
        let b = self.routers.find(b)?;
        Some((a, b))
    }

    fn hear_link(&mut self, number: usize, first: &str, second: &str) -> Result<(), ScriptFault>
        ensures { Gives result self.new
            (script.hear_line self.old number (Some (Link first.now second.now))) }
    {
        let Some((a, b)) = self.both(first, second) else {
            return refused(number, Reason::Name);
        };
        if first == second {
            return refused(number, Reason::Again);
        }
        if self.links.count() >= LINK_LIMIT {
            return limited(LimitName::Links);
        }
        self.links.add(a, b)?;
        Ok(())
    }

    fn hear_issue(
        &mut self,
        number: usize,
        router: &str,
        id: LspId,
        key: Key,
    ) -> Result<(), ScriptFault>
        ensures { Gives result self.new
            (script.hear_line self.old number (Some (Issue router.now id key))) }
    {
        let Some(router) = self.routers.find(router) else {
            return refused(number, Reason::Name);
        };
        let event = KeyEvent::Issue { router, id, key };
        self.events.push(EventLine {
            line: number,
            event,
        })?;
        Ok(())
    }

    fn hear_pass(
        &mut self,
        number: usize,
        copy: usize,
        from: &str,
        to: &str,
    ) -> Result<(), ScriptFault>
        ensures { Gives result self.new
            (script.hear_line self.old number (Some (Pass copy from.now to.now))) }
    {
        let Some((from, to)) = self.both(from, to) else {
            return refused(number, Reason::Name);
        };
        if !self.links.join(from, to) {
            return refused(number, Reason::NotOn);
        }
        let event = KeyEvent::Pass { copy, from, to };
        self.events.push(EventLine {
            line: number,
            event,
        })?;
        Ok(())
    }
}
