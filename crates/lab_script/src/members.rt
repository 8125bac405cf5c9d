//! The names that end a line.
ghost use Rattle.std.specs.Prelude.{◌≡◌, ◌&&◌, nat_le, [], ◌∷◌, length, IfSome, MatchOption};
ghost use Rattle.lab_script.specs.Fields.{are_names};
ghost use Rattle.lab_script.specs.LabLines.{members_form, HasMembers};

use crate::fields::{read_name, reads_name};
use crate::name::Name;
use line_cuts::Words;
use std::marker::Model;

/// The fewest members of a LAN.
const FEWEST_MEMBERS: usize = 2;

/// The most members of a LAN.
const MOST_MEMBERS: usize = 64;

/// The names of a LAN's members, taken one after another. Contracts see the names that are left.
#[derive(Drop)]
pub(crate) struct Members<'a> {
    left: Words<'a>,
}

impl<'a> Model for Members<'a> {
    ghost use Rattle.std.specs.Prelude.{◌≡◌, ℕ, true, List};
    ghost use Rattle.lab_script.specs.Fields.{are_names};

    ghost Value = { List (List ℕ) };

    ghost view = { λ members. members.left };

    ghost invariant = { λ members. are_names members.left ≡ true };
}

impl<'a> Members<'a> {
    /// The members that these words name, 2 to 64.
    pub(crate) fn read(words: Words<'a>) -> Option<Members<'a>>
        ensures value { result ≡ members_form words.entry }
        ensures many { IfSome result HasMembers }
    {
        if !are_members(words.again()) {
            return None;
        }
        Some(Members { left: words })
    }

    /// Takes the next name.
    pub(crate) fn next(&mut self) -> Option<Name<'a>>
        ensures { MatchOption result (self.old ≡ []) (λ name. self.old ≡ name ∷ self.new) }
    {
        match self.left.next() {
            Some(word) => read_name(word),
            None => None,
        }
    }
}

/// Whether these words are the names of 2 to 64 members.
fn are_members(mut words: Words<'_>) -> bool
    ensures { result ≡ ((nat_le 2 (length words.entry) && nat_le (length words.entry) 64)
        && are_names words.entry) }
{
    let mut count = 0usize;
    while let Some(word) = words.next() {
        if count >= MOST_MEMBERS || !reads_name(word) {
            return false;
        }
        count += 1;
    }
    count >= FEWEST_MEMBERS
}
