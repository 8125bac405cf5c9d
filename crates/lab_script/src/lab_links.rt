//! The links of a lab script so far, and their look-ups.
ghost use Rattle.std.specs.Prelude.{◌≡◌, ◌<◌, ◌≤◌, ◌+◌, ◌==◌, ℕ, None, false, [], ◌∷◌, ◌++◌, length, slice_index_or, IfOk, IfSome, OnOk, OnErr};
ghost use Rattle.std.specs.List.{AllByRecursion, count_by, list_any};
ghost use Rattle.lab_script.specs.Counts as counts;
ghost use Rattle.lab_script.specs.Counts.{CountsSame, one_more};
ghost use Rattle.lab_script.specs.LabScripts as script;
ghost use Rattle.lab_script.specs.LabScripts.{link_names, circuit_count, place_at, next_ends, link_between};
ghost use Rattle.lab_script.specs.Names.{number_of_name};
ghost use Rattle.line_cuts.specs.Words.{texts};

use crate::name::Name;
use crate::names::Names;
use crate::script_list::ScriptList;
use crate::setup::{End, LabLink};
use isis_base::CircuitKind;
use std::alloc::{AllocError, Global};
use std::marker::Model;

/// The links so far, a look-up by their names, and how many circuits each router has. Contracts see the list.
#[derive(Drop)]
pub(crate) struct LabLinks<'a> {
    list: Vec<LabLink<'a>>,
    names: Names<'a>,
    /// How many circuits the router of each number has; none where the list is at its end.
    circuits: Vec<usize>,
}

impl<'a> Model for LabLinks<'a> {
    ghost use Rattle.std.specs.Prelude.{List};
    ghost use Rattle.lab_script.specs.declared.setup.LabLink.{LabLink};

    ghost Value = { List LabLink };

    ghost view = { λ links. links.list.items };

    ghost use Rattle.lab_script.specs.LabLinkIndex.{AreLinksIndexed};

    ghost invariant = { AreLinksIndexed };
}

impl<'a> LabLinks<'a> {
    /// No links.
    pub(crate) fn new(alloc: Global) -> LabLinks<'a>
        ensures { result ≡ [] }
    {
        LabLinks {
            list: Vec::new(alloc),
            names: Names::new(alloc),
            circuits: Vec::new(alloc),
        }
    }

    /// The number of the link of a name.
    pub(crate) fn find(&self, name: &str) -> Option<usize>
        ensures value { result ≡ number_of_name (link_names self.now) name.now }
        ensures there { IfSome result (λ link. link < length self.now) }
    {
        self.names.find(name)
    }

    /// How many there are.
    pub(crate) fn count(&self) -> usize
        ensures { result ≡ length self.now }
    {
        self.list.len()
    }

    /// How many circuits a router has.
    pub(crate) fn circuits(&self, router: usize) -> usize
        ensures { result ≡ circuit_count self.now router }
    {
        match self.circuits.get(router) {
            Some(count) => *count,
            None => 0,
        }
    }

    /// The place of a router's circuit on a link, where the router is an end of it.
    pub(crate) fn place(&self, link: usize, router: usize) -> Option<usize>
        ensures { result ≡ place_at self.now link router }
    {
        let link = self.list.get(link)?;
        place_among(link.ends.as_slice(), router)
    }

    /// Adds a link of a new name and this kind between some of so many routers, none of them twice.
    pub(crate) fn add(
        &mut self,
        name: Name<'a>,
        kind: CircuitKind,
        routers: &[usize],
        known: usize,
        metric: u32,
    ) -> Result<(), AllocError>
        requires name { number_of_name (link_names self.old) name ≡ None }
        requires there { AllByRecursion (λ router. router < known) routers.now }
        requires apart { counts.has_twice routers.now ≡ false }
        requires many { length routers.now ≤ 64 }
        requires few { (router : ℕ) → circuit_count self.old router ≤ 64 }
        ensures ok { OnOk result (self.new
            ≡ self.old ++ link_between self.old name.entry kind routers.now metric ∷ []) }
        ensures err { OnErr result (self.new ≡ self.old) }
    {
        let ends = self.next_ends(routers)?;
        self.list.reserve(1)?;
        make_room(&mut self.circuits, known)?;
        self.names.add(name.letters())?;
        count_all(&mut self.circuits, routers);
        self.list.push_reserved(LabLink {
            name,
            kind,
            ends,
            metric,
        });
        Ok(())
    }

    /// An end at each of these routers, by its next circuit.
    fn next_ends(&self, routers: &[usize]) -> Result<ScriptList<End>, AllocError>
        ensures { IfOk result (λ ends. ends ≡ next_ends self.now routers.now) }
    {
        let mut ends = ScriptList::new(*self.list.allocator());
        for router in routers {
            let place = self.circuits(*router);
            match ends.push(End {
                router: *router,
                place,
            }) {
                Ok(()) => {}
                Err(error) => return Err(error),
            }
        }
        Ok(ends)
    }

    /// The links, in the order of their numbers.
    pub(crate) fn list(&self) -> &[LabLink<'a>]
        ensures { result.now ≡ self.now }
    {
        self.list.as_slice()
    }

    /// Their names, in the same order.
    pub(crate) fn names(&self) -> &[&'a str]
        ensures { texts result.now ≡ link_names self.now }
    {
        self.names.list()
    }
}

/// The place of a router's circuit among ends, where the router is one of them.
fn place_among(ends: &[End], router: usize) -> Option<usize>
    ensures { result ≡ script.place_among ends.now router }
{
    for end in ends {
        if end.router == router {
            return Some(end.place);
        }
    }
    None
}

/// Whether some number stands twice.
pub(crate) fn has_twice(numbers: &[usize]) -> bool
    ensures { result ≡ counts.has_twice numbers.now }
{
    let mut left = numbers;
    while let [first, behind @ ..] = left {
        if has(behind, *first) {
            return true;
        }
        left = behind;
    }
    false
}

/// Whether a number stands here.
fn has(numbers: &[usize], number: usize) -> bool
    ensures { result ≡ list_any (λ other. other == number) numbers.now }
{
    for other in numbers {
        if *other == number {
            return true;
        }
    }
    false
}

/// Makes the counts reach to a router; a count more is 0.
fn make_room(counts: &mut Vec<usize>, router: usize) -> Result<(), AllocError>
    ensures same { CountsSame counts.old.items counts.new.items }
    ensures longer { length counts.old.items ≤ length counts.new.items }
    ensures ok { OnOk result (router < length counts.new.items) }
{
    while counts.len() <= router {
        match counts.push(0) {
            Ok(()) => {}
            Err(error) => return Err(AllocError::from(error)),
        }
    }
    Ok(())
}

/// Counts a circuit more at each of these routers.
fn count_all(counts: &mut Vec<usize>, routers: &[usize])
    requires there { AllByRecursion (λ router. router < length counts.old.items) routers.now }
    requires many { length routers.now ≤ 64 }
    requires few { (router : ℕ) → slice_index_or counts.old.items router 0 ≤ 64 }
    ensures { (router : ℕ) → slice_index_or counts.new.items router 0
        ≡ slice_index_or counts.old.items router 0
        + count_by (λ other. other == router) routers.now }
{
    for router in routers {
        count_one(counts, *router);
    }
}

/// Counts a circuit more at a router.
fn count_one(counts: &mut Vec<usize>, router: usize)
    requires there { router < length counts.old.items }
    requires few { slice_index_or counts.old.items router 0 < 128 }
    ensures { counts.new.items ≡ one_more counts.old.items router }
{
    counts[router] = counts[router] + 1;
}
