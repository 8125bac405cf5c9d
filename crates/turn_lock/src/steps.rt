//! The steps on a lock's table, each with what it tells the seat that makes it.
ghost use Rattle.turn_lock.specs.Steps.{Draws, Measures, Compares, Looks, Advances, rest_view, given_view, joined_view};
ghost use Rattle.turn_lock.specs.Rule.{spent_view};

use crate::noted::Noted;
use crate::view::View;
use atomic_table::{Join, Play, Split};

/// Draws a ticket: word 0, plus one.
pub(crate) struct Draw;

impl<V: Noted> Play<Option<V>, View<V::Note, V::Beginning>> for Draw {
    ghost then = { Draws };
}

/// Looks at word 1, and takes the value where one's ticket is served.
pub(crate) struct Look;

impl<V: Noted> Play<Option<V>, View<V::Note, V::Beginning>> for Look {
    ghost then = { Looks V.notes V.beginning };
}

/// Gives the value back: word 1, plus one.
pub(crate) struct Advance;

impl<V: Noted> Play<Option<V>, View<V::Note, V::Beginning>> for Advance {
    ghost then = { Advances V.notes V.beginning };
}

/// Changes no word, and tells contracts how many turns the next split gives, since a split itself takes no number.
pub(crate) struct Measure;

impl<V: Noted> Play<Option<V>, View<V::Note, V::Beginning>> for Measure {
    ghost then = { Measures };
}

/// Changes no word, and tells contracts how the lists of two joined passes stand, since a join itself tells nothing.
pub(crate) struct Compare;

impl<V: Noted> Play<Option<V>, View<V::Note, V::Beginning>> for Compare {
    ghost then = { Compares };
}

/// Cuts a view in two.
pub(crate) struct Cut;

impl<N, B> Split<View<N, B>> for Cut {
    ghost left = { rest_view };

    ghost right = { given_view };
}

/// Makes two views one.
pub(crate) struct Merge;

impl<N, B> Join<View<N, B>> for Merge {
    ghost both = { joined_view };

    ghost spent = { spent_view };
}
