//! The three-way handshake.
ghost use Rattle.std.specs.Prelude.{◌≡◌};
ghost use Rattle.model_router.specs.Adjacencies as model;

use isis_tlv::Adj;

/// The state after a hello, by one's own state and the state that the neighbour tells (RFC 5303
/// 3.2).
pub fn three_way(state: Adj, heard: Adj) -> Adj
    ensures { result ≡ model.three_way state heard }
{
    match (state, heard) {
        (Adj::Down, Adj::Down) => Adj::Initializing,
        (Adj::Down, Adj::Initializing) => Adj::Up,
        (Adj::Down, Adj::Up) => Adj::Down,
        (Adj::Initializing, Adj::Down) => Adj::Initializing,
        (Adj::Initializing, Adj::Initializing) => Adj::Up,
        (Adj::Initializing, Adj::Up) => Adj::Up,
        (Adj::Up, Adj::Down) => Adj::Initializing,
        (Adj::Up, Adj::Initializing) => Adj::Up,
        (Adj::Up, Adj::Up) => Adj::Up,
    }
}
