//! A list of pieces.
ghost use Rattle.std.specs.Prelude.{◌≡◌, List, [], ◌∷◌, ◌++◌};
ghost use Rattle.std.specs.Borrow.{ftrue};

use std::marker::{Model, PhantomData};

/// A list of slices, as they were when each was noted, which contracts alone see. It has no octets.
pub struct PieceList<N> {
    of: PhantomData<N>,
    pub ghost pieces: { List (List N) },
}

impl<N> Model for PieceList<N> {
    ghost also_owns = { λ _. ftrue };
}

// It owns nothing.
unsafe impl<N> Send for PieceList<N> {}

impl<N> Drop for PieceList<N> {
    fn drop(self) {
        let Self { of: _ } = self;
    }
}

impl<N> PieceList<N> {
    /// An empty list.
    pub fn new() -> PieceList<N>
        ensures { result.pieces ≡ [] }
    {
        PieceList { of: PhantomData }
    }

    /// Adds a piece at the end.
    pub fn push(&mut self, piece: &[N])
        ensures { self.new.pieces ≡ self.old.pieces ++ piece.now ∷ [] }
    {
        *self = self.with(piece);
    }

    fn with(&self, piece: &[N]) -> PieceList<N>
        ensures { result.pieces ≡ self.now.pieces ++ piece.now ∷ [] }
    {
        PieceList { of: PhantomData }
    }
}
