//! The plan of a second (own).
ghost use Rattle.std.specs.Prelude.{◌≡◌, ◌≤◌, true, false, List, None, is_some, length, map, IfOk, IfSome};
ghost use Rattle.std.specs.List.{AllByRecursion};
ghost use Rattle.model_router.specs.Both.{at};
ghost use Rattle.model_router.specs.Events as model;
ghost use Rattle.model_router.specs.Good.{IsIssuable};
ghost use Rattle.model_router.specs.Routers.{Circuit, Router, level_of};
ghost use Rattle.model_router.specs.Sorted.{RisesFrom};
ghost use Rattle.flag_sync.specs.BookStates as books;
ghost use Rattle.router_wanted.specs.Views.{contents_of, wanted_of};
ghost use Rattle.router_routes.specs.Outlooks.{Outlook, outlook_of};
ghost use Rattle.router_routes.specs.Following.{IsFollowing};
ghost use Rattle.router_core.specs.Calm.{all_last, AreLasting, is_ending};
ghost use Rattle.router_core.specs.Machines.{IsFit};
ghost use Rattle.router_core.specs.LevelSeconds.{AreWantedWith, IsCalmWith, IsLevelSecond, IsResting};
ghost use Rattle.router_core.specs.Plans.{AreTold, IsPlan};
ghost use Rattle.router_core.specs.Reached.{IsReached};
ghost use Rattle.router_core.specs.Settled.{AreTrue, IsSettledAt, faces};
ghost use Rattle.router_core.specs.Shifts.{AreMovedOn};

use crate::marks::Marks;
use crate::movers::Movers;
use crate::parts::Parts;
use crate::plan::{Deed, Plan};
use crate::quiet::{is_quiet, is_settled};
use crate::renewal::drafts_of;
use crate::reply::Reply;
use crate::second::{copies_then, seen_then};
use crate::told::Told;
use flag_sync::Book;
use isis_base::{Level, OutOfMemory};
use lsp_store::{Entry, Pairs, is_live};
use router_circuits::Circuit;
use router_levels::Wants;
use router_routes::Following;
use router_wanted::Wanted;

/// What a second makes of a level: it passes in place, and is then followed by drafts of what it `wants`, where there are some;
/// these nodes tell other things then, unless that wasn't asked; and where it is `settled`, its own LSPs say what is then wanted.
#[derive(Drop)]
struct LevelSecond {
    wants: Option<Wants>,
    movers: Option<Movers>,
    unasked: bool,
    settled: bool,
}

impl Parts {
    /// The plan of a second. Circuits are copied only where an adjacency's time ends. What is wanted is made only for levels that
    /// aren't marked, and a level is followed only where one of its own LSPs is to be issued or purged, or a live entry's time
    /// ends (own).
    pub(crate) fn plan_second<'a>(
        &self,
        following: Option<&Following>,
        marks: Marks,
    ) -> Result<Plan<'a>, OutOfMemory>
        requires reached { IsReached self.now }
        requires following { IfSome following (λ f. IsFollowing (outlook_of self.now) f.now) }
        requires marks { AreTrue marks self.now }
        ensures { IfOk result (IsPlan (is_some following.entry) self.now model.Second) }
    {
        let copies = copies_then(self.alloc, &self.circuits)?;
        let circuits = seen_then(&copies, &self.circuits);
        let keeps = copies.is_none();
        let one = self.level_second(circuits, Level::One, following, keeps && marks.one)?;
        let two = match self.level_second(circuits, Level::Two, following, keeps && marks.two) {
            Ok(two) => two,
            Err(error) => {
                drop(one);
                return Err(error);
            }
        };
        let settled = Marks {
            one: one.settled,
            two: two.settled,
        };
        let unasked = one.unasked | two.unasked;
        let (told, marks) = told_of(unasked, one.movers, two.movers, settled);
        Ok(Plan {
            deed: Deed::Second {
                copies,
                one: one.wants,
                two: two.wants,
            },
            reply: Reply::Done,
            told,
            marks,
        })
    }

    /// What a second makes of a level, with circuits that say what its own then do. Where it is marked and the circuits say what
    /// they said, only ages are looked at.
    fn level_second(
        &self,
        circuits: &[Circuit],
        level: Level,
        following: Option<&Following>,
        marked: bool,
    ) -> Result<LevelSecond, OutOfMemory>
        requires few { length circuits.now ≤ 64 }
        requires fit { AllByRecursion IsFit circuits.now }
        requires following { IfSome following (λ f. IsFollowing (outlook_of self.now) f.now) }
        requires marked { marked ≡ true
            → IsSettledAt self.now level × (faces circuits.now ≡ faces self.now.circuits) }
        ensures { IfOk result (IsLevelSecond (is_some following.entry) self.now level circuits.now) }
    {
        if marked && self.rests(level) {
            return Ok(LevelSecond {
                wants: None,
                movers: None,
                unasked: false,
                settled: true,
            });
        }
        let wanted = self.wanted_with(circuits, level, following)?;
        match self.calm_level(level, &wanted) {
            Ok(Some(settled)) => {
                drop(wanted);
                Ok(LevelSecond {
                    wants: None,
                    movers: None,
                    unasked: false,
                    settled,
                })
            }
            Ok(None) => self.level_renewed(level, wanted, following.is_some()),
            Err(error) => {
                drop(wanted);
                Err(error)
            }
        }
    }

    /// Whether no live entry's time ends in a level within a second, and none of its own LSPs is then issued for its age.
    fn rests(&self, level: Level) -> bool
        ensures { result ≡ true → IsResting (level_of self.now level) }
    {
        let on = self.level(level);
        if !lasts(on.book()) {
            return false;
        }
        on.own().rests()
    }

    /// Whether none of a level's own LSPs is to be issued or purged within a second, where these are wanted then, and no live
    /// entry's time ends: then whether its own LSPs say what is wanted, and else `None`.
    fn calm_level(&self, level: Level, wanted: &[Wanted]) -> Result<Option<bool>, OutOfMemory>
        ensures { IfOk result (λ o. IfSome o (λ settled.
            IsCalmWith (level_of self.now level) (map wanted_of wanted.now) settled)) }
    {
        let on = self.level(level);
        if !lasts(on.book()) {
            return Ok(None);
        }
        let own = on.own();
        if is_settled(own, wanted) && own.rests() {
            return Ok(Some(true));
        }
        let mut later = own.copy()?;
        later.second();
        if is_quiet(&later, wanted) {
            return Ok(Some(false));
        }
        Ok(None)
    }

    /// What a second makes of a level that then wants these own LSPs, and is followed.
    fn level_renewed(
        &self,
        level: Level,
        wanted: Vec<Wanted>,
        asked: bool,
    ) -> Result<LevelSecond, OutOfMemory>
        requires issuable { AllByRecursion
            (λ w. IsIssuable (at self.now.config.keys level) (contents_of w)) wanted.items }
        requires rises { RisesFrom 0 (map wanted_of wanted.items) }
        ensures { IfOk result (λ second. (circuits : List Circuit)
            → AreWantedWith self.now level circuits (map wanted_of wanted.items)
            → IsLevelSecond asked self.now level circuits second) }
    {
        let movers = match self.movers_by(level, &wanted, asked) {
            Ok(movers) => movers,
            Err(error) => {
                drop(wanted);
                return Err(error);
            }
        };
        match drafts_of(self.alloc, self.level_key(level), level, wanted) {
            Ok(wants) => Ok(LevelSecond {
                wants: Some(wants),
                movers,
                unasked: !asked,
                settled: false,
            }),
            Err(error) => {
                drop(movers);
                Err(error)
            }
        }
    }
}

/// What is told once these nodes of both levels tell other things, unless that wasn't asked, and the marks as they will be: none
/// where any does, or that isn't known.
fn told_of(unasked: bool, one: Option<Movers>, two: Option<Movers>, marks: Marks) -> (Told, Marks)
    ensures told { (old new : Outlook) → unasked ≡ false → AreMovedOn old new one two
        → AreTold old new result.0 }
    ensures marks { (r : Router) → (unasked ≡ false → one ≡ None → two ≡ None → AreTrue marks r)
        → AreTrue result.1 r }
{
    match (unasked, one, two) {
        (false, None, None) => (Told::Nothing, marks),
        (false, one, two) => (Told::Levels { one, two }, Marks::none()),
        (true, _, _) => (Told::Unasked, Marks::none()),
    }
}

/// Whether no live entry's time ends within a second (ISO 10589 7.3.16.3).
fn lasts(book: &Book) -> bool
    ensures { result ≡ true → AreLasting (books.book_of book.now) }
{
    book.order_law();
    all_last(book.store().pages().pairs())
}

/// The same of entries.
fn all_last(mut entries: Pairs<'_, Entry>) -> bool
    ensures { result ≡ all_last entries.entry }
{
    while let Some((_, entry)) = entries.next() {
        if is_ending(entry) {
            return false;
        }
    }
    true
}

/// Whether an entry is live, and its time ends within a second (ISO 10589 7.3.16.3).
pub(crate) fn is_ending(entry: &Entry) -> bool
    ensures { result ≡ is_ending entry.now }
{
    is_live(entry) && entry.left < 2
}
