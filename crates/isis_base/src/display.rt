//! The texts of identifiers, keys and levels, written.
ghost use Rattle.std.specs.Prelude.{Some, ◌++◌, ◌∷◌, []};
ghost use Rattle.isis_base.specs.Levels.{level_text, levels_text};
ghost use Rattle.isis_base.specs.Keys.{order_text};
ghost use Rattle.isis_base.specs.AreaTexts.{groups_text, area_text};
ghost use Rattle.isis_base.specs.PrefixTexts.{prefix_text};
ghost use Rattle.isis_base.specs.Texts.{hex_pair, system_text, snpa_text, node_text, lsp_text, key_text};

use crate::area::AreaAddress;
use crate::identifiers::{LspId, NodeId, Snpa, SystemId};
use crate::key::Key;
use crate::level::{Level, LevelSet};
use crate::order::Order3;
use crate::prefix::Prefix;
use std::fmt;

/// An octet as two hex digits.
#[derive(Clone, Copy)]
struct Pair(u8);

impl fmt::Display for Pair {
    ghost output = { λ pair. Some (hex_pair pair.0) };

    #[tactic(auto, using(std::proofs::lemmas::Fmt::hex_byte))]
    fn fmt<W: fmt::Write>(&self, f: &mut fmt::Formatter<W>) -> fmt::Result {
        let octet = self.0;
        write!(f, "{octet:02x}")
    }
}

/// Two octets as four hex digits.
#[derive(Clone, Copy)]
struct Group(u8, u8);

impl fmt::Display for Group {
    ghost output = { λ group. Some (hex_pair group.0 ++ hex_pair group.1) };

    fn fmt<W: fmt::Write>(&self, f: &mut fmt::Formatter<W>) -> fmt::Result {
        let first = Pair(self.0);
        let second = Pair(self.1);
        write!(f, "{first}{second}")
    }
}

impl fmt::Display for SystemId {
    ghost output = { λ system. Some (system_text system) };

    fn fmt<W: fmt::Write>(&self, f: &mut fmt::Formatter<W>) -> fmt::Result {
        let [a, b, c, d, e, g] = self.0;
        let high = Group(a, b);
        let middle = Group(c, d);
        let low = Group(e, g);
        write!(f, "{high}.{middle}.{low}")
    }
}

impl fmt::Display for Snpa {
    ghost output = { λ snpa. Some (snpa_text snpa) };

    fn fmt<W: fmt::Write>(&self, f: &mut fmt::Formatter<W>) -> fmt::Result {
        let system = SystemId(self.0);
        write!(f, "{system}")
    }
}

impl fmt::Display for NodeId {
    ghost output = { λ node. Some (node_text node) };

    fn fmt<W: fmt::Write>(&self, f: &mut fmt::Formatter<W>) -> fmt::Result {
        let system = self.system;
        let pseudonode = Pair(self.pseudonode);
        write!(f, "{system}.{pseudonode}")
    }
}

impl fmt::Display for LspId {
    ghost output = { λ id. Some (lsp_text id) };

    fn fmt<W: fmt::Write>(&self, f: &mut fmt::Formatter<W>) -> fmt::Result {
        let node = self.node;
        let number = Pair(self.number);
        write!(f, "{node}-{number}")
    }
}

/// The octets behind an area's first, two by two.
#[derive(Clone, Copy)]
struct Groups<'a>(&'a [u8]);

impl fmt::Display for Groups<'_> {
    ghost output = { λ groups. Some (groups_text groups.0.now) };

    fn fmt<W: fmt::Write>(&self, f: &mut fmt::Formatter<W>) -> fmt::Result {
        let mut left = self.0;
        while let [high, low, others @ ..] = left {
            let group = Group(*high, *low);
            write!(f, ".{group}")?;
            left = others;
        }
        let [last] = left else {
            return Ok(());
        };
        let last = Pair(*last);
        write!(f, ".{last}")
    }
}

impl fmt::Display for AreaAddress {
    ghost output = { λ area. Some (area_text area) };

    fn fmt<W: fmt::Write>(&self, f: &mut fmt::Formatter<W>) -> fmt::Result {
        let [first, others @ ..] = self.octets() else {
            return Ok(());
        };
        let first = Pair(*first);
        let groups = Groups(others);
        write!(f, "{first}{groups}")
    }
}

impl fmt::Display for Prefix {
    ghost output = { λ prefix. Some (prefix_text prefix.address prefix.length) };

    fn fmt<W: fmt::Write>(&self, f: &mut fmt::Formatter<W>) -> fmt::Result {
        let [a, b, c, d] = self.address().to_be_bytes();
        let length = self.length();
        write!(f, "{a}.{b}.{c}.{d}/{length}")
    }
}

impl fmt::Display for Key {
    ghost output = { λ key. Some (key_text key) };

    fn fmt<W: fmt::Write>(&self, f: &mut fmt::Formatter<W>) -> fmt::Result {
        let number = self.number;
        if self.purged {
            write!(f, "{number} purged")
        } else {
            write!(f, "{number} live")
        }
    }
}

impl fmt::Display for Level {
    ghost output = { λ level. Some (level_text level) };

    fn fmt<W: fmt::Write>(&self, f: &mut fmt::Formatter<W>) -> fmt::Result {
        match self {
            Level::One => write!(f, "L1"),
            Level::Two => write!(f, "L2"),
        }
    }
}

impl fmt::Display for LevelSet {
    ghost output = { λ set. Some (levels_text set) };

    fn fmt<W: fmt::Write>(&self, f: &mut fmt::Formatter<W>) -> fmt::Result {
        match self {
            LevelSet::One => write!(f, "L1"),
            LevelSet::Two => write!(f, "L2"),
            LevelSet::Both => write!(f, "L1L2"),
        }
    }
}

impl fmt::Display for Order3 {
    ghost output = { λ order. Some (order_text order) };

    fn fmt<W: fmt::Write>(&self, f: &mut fmt::Formatter<W>) -> fmt::Result {
        match self {
            Order3::Older => write!(f, "older"),
            Order3::Same => write!(f, "same"),
            Order3::Newer => write!(f, "newer"),
        }
    }
}
