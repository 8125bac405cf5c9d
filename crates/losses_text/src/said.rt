//! What a text of losses says.

use crate::part_words::PartOf;
use std::marker::Model;

/// A datagram that wasn't delivered to a router, by the router's name.
#[derive(Clone, Copy, Debug, PartialEq, Eq)]
pub struct NamedLoss<'a> {
    /// The place of the delivery among all that came up, counted from 0.
    pub place: usize,
    /// The datagram, by its number, counted from 1.
    pub datagram: usize,
    /// The router, by the letters of its name.
    pub name: &'a [u8],
}

/// What a text of losses says of the last line of a script. Seconds are those of the line, counted from 1.
#[derive(Drop)]
pub struct Losses<'a> {
    /// How many deliveries are lost, at most.
    pub most: u32,
    /// The part of all schedules; none where all of them were played.
    pub part: Option<PartOf>,
    /// How many schedules were played.
    pub schedules: u64,
    /// The second from which on all agree, where nothing is lost.
    pub agree: u64,
    /// In how many schedules they don't agree at the end.
    pub apart: u64,
    /// The latest second from which on they agree.
    pub latest: u64,
    /// The deliveries that are lost where it takes so long, in order.
    pub lost: Vec<NamedLoss<'a>>,
}

impl<'a> Model for Losses<'a> {
    ghost use Rattle.std.specs.Prelude.{map};
    ghost use Rattle.losses_text.specs.Said.{Said, lost_of};

    ghost Value = { Said };

    ghost view = { λ l. record {
      most = l.most;
      part = l.part;
      schedules = l.schedules;
      agree = l.agree;
      apart = l.apart;
      latest = l.latest;
      lost = map lost_of l.lost.items;
    } };
}
