//! What was sent, and the turns so far.
ghost use Rattle.std.specs.Prelude.{◌≡◌, ◌++◌, ◌∷◌, [], length, OnOk};
ghost use Rattle.weave_core.specs.Fits.{turn_of, sent_by};
ghost use Rattle.weave_core.specs.Posts.{AreKept};

use crate::moves::{Sent, Turn};
use crate::posts::{Post, pick, post_at, send};
use isis_base::OutOfMemory;
use std::alloc::Global;
use std::marker::Model;

/// What was sent, in order, and the turns so far.
#[derive(Drop)]
pub struct Medium {
    sent: Vec<Sent>,
    turns: Vec<Turn>,
    posts: Vec<Post>,
}

impl Model for Medium {
    ghost use Rattle.weave_core.specs.Scenes.{Told};
    ghost use Rattle.weave_core.specs.Posts.{AreKept};

    ghost Value = { Told };

    ghost view = { λ m. record { sent = m.sent.items; turns = m.turns.items } };

    ghost invariant = { λ m. AreKept m.posts.items m.sent.items };
}

impl Medium {
    /// Nothing was sent. It takes no memory.
    pub fn new(alloc: Global) -> Medium
        ensures { result ≡ record { sent = []; turns = [] } }
    {
        Medium {
            sent: Vec::new(alloc),
            turns: Vec::new(alloc),
            posts: Vec::new(alloc),
        }
    }

    /// The turns.
    pub fn turns(&self) -> &[Turn]
        ensures { result.now ≡ self.now.turns }
    {
        &self.turns
    }

    /// How many turns there were.
    pub fn len(&self) -> usize
        ensures { result ≡ length self.now.turns }
    {
        self.turns.len()
    }

    /// A party's turn with a move that needs this, with the first that fits; `None` where nothing
    /// fits.
    pub(crate) fn turn_of(&self, party: usize, needs: Option<usize>) -> Option<Turn>
        ensures { result ≡ turn_of party needs self.now.sent }
    {
        let Some(letter) = needs else {
            return Some(Turn { party, taken: None });
        };
        match pick(party, post_at(&self.posts, letter)) {
            Some(number) => Some(Turn {
                party,
                taken: Some(number),
            }),
            None => None,
        }
    }

    /// A turn, with what its party sends.
    pub(crate) fn take(&mut self, turn: Turn, letters: &[usize]) -> Result<(), OutOfMemory>
        ensures { OnOk result (self.new ≡ record {
          sent = self.old.sent ++ sent_by turn.party letters.now;
          turns = self.old.turns ++ (turn ∷ []);
        }) }
    {
        self.turns.push(turn)?;
        send_all(&mut self.posts, &mut self.sent, turn.party, letters)
    }
}

/// A party sends letters, in order.
fn send_all(
    posts: &mut Vec<Post>,
    sent: &mut Vec<Sent>,
    party: usize,
    letters: &[usize],
) -> Result<(), OutOfMemory>
    ensures kept { AreKept posts.old.items sent.old.items → AreKept posts.new.items sent.new.items }
    ensures sent { OnOk result (sent.new.items ≡ sent.old.items ++ sent_by party letters.now) }
{
    for letter in letters {
        send(posts, sent, party, *letter)?;
    }
    Ok(())
}
