//! A script of either kind, read from a text.
ghost use Rattle.std.specs.Prelude.{◌≡◌, None, IfSome};
ghost use Rattle.std.specs.Option.{option_map};
ghost use Rattle.std.specs.List.{slice_get};
ghost use Rattle.lab_script.specs.Gives.{Gives, Answers};
ghost use Rattle.lab_script.specs.Names.{number_of_name};
ghost use Rattle.lab_script.specs.Scripts as said;
ghost use Rattle.lab_script.specs.Scripts.{is_lab_script, names_in, links_in};
ghost use Rattle.line_cuts.specs.Words.{words_of};

use crate::keys_script::KeysScript;
use crate::lab_script::LabScript;
use crate::reason::{Reason, ScriptFault, refused};
use line_cuts::cut;
use std::alloc::Global;

/// A script of either kind.
#[derive(Drop)]
pub enum Script<'a> {
    /// A plain network that passes numbered copies of LSPs' keys.
    Keys(KeysScript<'a>),
    /// A network of routers.
    Lab(LabScript<'a>),
}

/// Reads a script. The first line that is refused, or passes a limit, is told with the first reason that applies.
pub fn read_script(alloc: Global, text: &[u8]) -> Result<Script<'_>, ScriptFault>
    ensures { Answers result (said.script_of text.now) }
{
    let (head, behind) = cut(text, b'\n');
    let Some(mut script) = Script::headed(alloc, head) else {
        return refused(1, Reason::Head);
    };
    let mut number = 2usize;
    let mut left = behind;
    while let Some(rest) = left {
        let (line, behind) = cut(rest, b'\n');
        match script.hear_text(number, line) {
            Ok(()) => number += 1,
            Err(fault) => return Err(fault),
        }
        left = behind;
    }
    Ok(script)
}

fn is_skipped(text: &[u8]) -> bool
    ensures { result ≡ said.is_skipped text.now }
{
    match text {
        [] => true,
        [byte, ..] => *byte == b'#',
    }
}

impl<'a> Script<'a> {
    /// Whether this is a lab script; it is a keys script else.
    pub fn is_lab(&self) -> bool
        ensures { result ≡ is_lab_script self.now }
    {
        match self {
            Script::Keys(_) => false,
            Script::Lab(_) => true,
        }
    }

    /// The number of the router of this name, counted from 0; `None` exactly where there is none.
    pub fn router(&self, name: &str) -> Option<usize>
        ensures { result ≡ number_of_name (names_in self.now) name.now }
    {
        match self {
            Script::Keys(script) => script.router(name),
            Script::Lab(script) => script.router(name),
        }
    }

    /// The name of the router of this number; `None` exactly where there is none.
    pub fn name(&self, router: usize) -> Option<&str>
        ensures { option_map (λ name. name.now) result ≡ slice_get (names_in self.now) router }
    {
        match self {
            Script::Keys(script) => script.names().get(router).copied(),
            Script::Lab(script) => script.names().get(router).copied(),
        }
    }

    /// The name of the link of this number; `None` exactly where there is none. The links of a keys script have no names.
    pub fn link(&self, link: usize) -> Option<&str>
        ensures { option_map (λ name. name.now) result ≡ slice_get (links_in self.now) link }
    {
        match self {
            Script::Keys(_) => None,
            Script::Lab(script) => script.link_names().get(link).copied(),
        }
    }

    /// The script that a head begins.
    fn headed(alloc: Global, head: &[u8]) -> Option<Script<'a>>
        ensures { result ≡ said.script_headed head.now }
    {
        if head == b"isis-keys 1".as_slice() {
            return Some(Script::Keys(KeysScript::new(alloc)));
        }
        if head == b"isis-lab 1".as_slice() {
            return Some(Script::Lab(LabScript::new(alloc)));
        }
        None
    }

    fn hear_text(&mut self, number: usize, text: &'a [u8]) -> Result<(), ScriptFault>
        ensures { Gives result self.new (said.hear_text self.old number text.now) }
    {
        if is_skipped(text) {
            return Ok(());
        }
        self.hear_words(number, text)
    }

    /// Takes a line that isn't skipped.
    fn hear_words(&mut self, number: usize, text: &'a [u8]) -> Result<(), ScriptFault>
        ensures { Gives result self.new (said.hear_words self.old number (words_of text.now)) }
    {
        match self {
            Script::Keys(script) => script.hear(number, text),
            Script::Lab(script) => script.hear(number, text),
        }
    }
}
