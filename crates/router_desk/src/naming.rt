//! The name of a cause.
ghost use Rattle.std.specs.Prelude.{◌≡◌};
ghost use Rattle.adjacency.specs.Changes.{drop_name};
ghost use Rattle.router_desk.specs.Causes.{name_of};

use crate::cause::DropCause;
use adjacency::HelloDrop;
use model_router::DropName;

impl DropCause {
    /// The name of this cause, by which drops are counted.
    pub fn name(&self) -> DropName
        ensures { result ≡ name_of self.now }
    {
        match *self {
            DropCause::Frame(_) => DropName::Frame,
            DropCause::Version => DropName::Version,
            DropCause::Pdu(_) => DropName::Pdu,
            DropCause::TooLong => DropName::TooLong,
            DropCause::WrongKind => DropName::WrongKind,
            DropCause::WrongLevel => DropName::WrongLevel,
            DropCause::Auth(_) => DropName::Auth,
            DropCause::Value { .. } => DropName::Value,
            DropCause::ZeroNumber => DropName::ZeroNumber,
            DropCause::BadChecksum => DropName::BadChecksum,
            DropCause::Hello(refused) => name_of_hello(refused),
            DropCause::NoAdjacency => DropName::NoAdjacency,
            DropCause::NotDesignated => DropName::NotDesignated,
            DropCause::StoreFull => DropName::StoreFull,
        }
    }
}

/// The name of a cause for which a hello is refused.
fn name_of_hello(refused: HelloDrop) -> DropName
    ensures { result ≡ drop_name refused }
{
    match refused {
        HelloDrop::OwnId => DropName::OwnId,
        HelloDrop::OtherSnpa => DropName::OtherSnpa,
        HelloDrop::OldBoot => DropName::OldBoot,
        HelloDrop::NoLevel => DropName::NoLevel,
        HelloDrop::NoArea => DropName::NoArea,
        HelloDrop::NoThreeWay => DropName::NoThreeWay,
        HelloDrop::OtherNeighbour => DropName::OtherNeighbour,
        HelloDrop::TooMany => DropName::TooMany,
    }
}
