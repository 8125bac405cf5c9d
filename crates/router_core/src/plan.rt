//! What a router will do at an event, made before anything changes.
ghost use Rattle.std.specs.Prelude.{◌≡◌, ℕ, ◌-◌, Bool, Some, is_some, IfOk, IfSome};
ghost use Rattle.model_router.specs.Events as model;
ghost use Rattle.model_router.specs.Places.{nth};
ghost use Rattle.model_router.specs.Receiving.{drop_of};
ghost use Rattle.router_desk.specs.Causes.{name_of};
ghost use Rattle.router_desk.specs.Heard.{message_of};
ghost use Rattle.router_routes.specs.Outlooks.{outlook_of};
ghost use Rattle.router_routes.specs.Following.{IsFollowing};
ghost use Rattle.router_core.specs.Events.{IsThere};
ghost use Rattle.router_core.specs.Plans.{IsPlan};
ghost use Rattle.router_core.specs.Reached.{IsReached};
ghost use Rattle.router_core.specs.Reads.{event_in, FitsHeard, FitsRead};
ghost use Rattle.router_core.specs.Settled.{AreTrue};

use crate::due::Due;
use crate::marks::Marks;
use crate::parts::Parts;
use crate::read::Read;
use crate::reply::Reply;
use crate::told::Told;
use flag_sync::LspHeard;
use isis_base::{Level, LspEntry, LspId, OutOfMemory};
use router_circuits::Circuit;
use router_desk::{Change, DropCause, Heard, HelloHeard};
use router_levels::Wants;
use router_routes::Following;
use router_sending::Draft;

/// What is done: a datagram that is dropped is counted; the configuration changes; a hello that passes is taken; an LSP is taken,
/// with a draft of the answer where it outbids one's own; a sequence number PDU is taken, with drafts of the own LSPs that it
/// names; what was due on a circuit was sent; or a second passes, by copies of the circuits as they are then, where an adjacency's
/// time ends, and drafts of what each level that is followed then wants.
#[derive(Drop)]
pub(crate) enum Deed<'a> {
    Dropped(DropCause),
    Change(Change),
    PointHello {
        circuit: u8,
        hello: &'a HelloHeard,
    },
    LanHello {
        circuit: u8,
        level: Level,
        hello: &'a HelloHeard,
    },
    Lsp {
        circuit: u8,
        level: Level,
        lsp: LspHeard<'a>,
        answer: Option<Draft>,
    },
    Snp {
        circuit: u8,
        level: Level,
        range: Option<(LspId, LspId)>,
        entries: &'a [LspEntry],
        drafts: Vec<Option<Draft>>,
    },
    Pull {
        circuit: u8,
        due: Due,
    },
    Second {
        copies: Option<Vec<Circuit>>,
        one: Option<Wants>,
        two: Option<Wants>,
    },
}

/// What is done, what is answered, what changes of what routes look at where that is asked for, and the marks as they will be.
#[derive(Drop)]
pub(crate) struct Plan<'a> {
    pub(crate) deed: Deed<'a>,
    pub(crate) reply: Reply,
    pub(crate) told: Told,
    pub(crate) marks: Marks,
}

impl Parts {
    /// How an event that was read is done. What changes of what routes look at is found out where they follow the router.
    pub(crate) fn plan<'a>(
        &self,
        read: &'a Read<'a>,
        following: Option<&Following>,
        marks: Marks,
    ) -> Result<Plan<'a>, OutOfMemory>
        requires fits { FitsRead self.now read.now }
        requires reached { IsReached self.now }
        requires following { IfSome following (λ f. IsFollowing (outlook_of self.now) f.now) }
        requires marks { AreTrue marks self.now }
        ensures { IfOk result (IsPlan (is_some following.entry) self.now (event_in read.now)) }
    {
        match read {
            Read::Second => self.plan_second(following, marks),
            Read::Pull { circuit } => self.plan_pull(*circuit, marks),
            Read::Change(change) => self.plan_change(*change, following.is_some()),
            Read::Refused { circuit: _, cause } => Ok(self.plan_drop(*cause, marks)),
            Read::Heard { circuit, heard } => self.plan_heard(*circuit, heard, following, marks),
        }
    }

    /// How what was heard is done.
    fn plan_heard<'a>(
        &self,
        circuit: u8,
        heard: &'a Heard<'a>,
        following: Option<&Following>,
        marks: Marks,
    ) -> Result<Plan<'a>, OutOfMemory>
        requires fits { FitsHeard self.now circuit heard.now }
        requires reached { IsReached self.now }
        requires following { IfSome following (λ f. IsFollowing (outlook_of self.now) f.now) }
        requires marks { AreTrue marks self.now }
        ensures { IfOk result (IsPlan (is_some following.entry) self.now (model.Take (circuit - 1) (message_of heard.now))) }
    {
        match heard {
            Heard::PointHello(hello) => Ok(self.plan_point_hello(circuit, hello, marks)),
            Heard::LanHello(level, hello) => {
                Ok(self.plan_lan_hello(circuit, *level, hello, marks))
            }
            Heard::Lsp { level, from, lsp } => {
                self.plan_lsp(circuit, (*level, *from), lsp, following, marks)
            }
            Heard::Snp {
                level,
                from,
                source,
                range,
                entries,
            } => {
                let from = (*from, *source);
                self.plan_snp(circuit, *level, from, *range, entries, following, marks)
            }
        }
    }

    /// The plan of a datagram that is dropped.
    pub(crate) fn plan_drop<'a>(&self, cause: DropCause, marks: Marks) -> Plan<'a>
        requires { AreTrue marks self.now }
        ensures { (asked : Bool) (circuit : ℕ) (m : model.Message) → IsThere self.now circuit
            → IfSome (nth self.now.circuits (circuit - 1)) (λ c.
            drop_of self.now (circuit - 1) c m ≡ Some (name_of cause))
            → IsPlan asked self.now (model.Take (circuit - 1) m) result }
    {
        Plan {
            deed: Deed::Dropped(cause),
            reply: Reply::Dropped(cause),
            told: Told::Nothing,
            marks,
        }
    }
}
