// The walk along the data string, piece by piece.
ghost use Rattle.std.specs.Prelude.{◌≡◌, ◌-◌, ◌≤◌, ◌<◌, min};
ghost use Rattle.std.specs.Iterator.{at_most};
ghost use Rattle.shape.specs.Shapes.{Valid, capacity};
ghost use Rattle.data.specs.Inner.Place.{Standing};
ghost use Rattle.data.specs.Inner.Walk.{walks};

use crate::place::{Piece, Pieces, next_row, stretch_at};
use shape::Shape;

impl Pieces {
    // From byte `from` up to byte `end`; no piece where `from` is not below it.
    pub(crate) fn over(sh: Shape, from: usize, end: usize) -> Pieces
        requires { Valid sh × (end ≤ capacity sh) }
        ensures { (result.sh ≡ sh) × (result.q ≡ min from end) × (result.end ≡ end) × Standing result.sh result.q result.next }
    {
        let q = from.min(end);
        let next = stretch_at(sh, q);
        Pieces { sh, q, end, next }
    }
}

impl Iterator for Pieces {
    type Item = Piece;

    ghost can_next = { λ s. s.q < s.end → Standing s.sh s.q s.next };

    ghost next_gives = { walks };

    ghost remaining = { λ s. at_most (s.end - s.q) };

    fn next(&mut self) -> Option<Piece> {
        let Pieces { sh, q, end, next } = *self;
        if end <= q {
            return None;
        }
        let len = next.len.min(end - q);
        self.q = q + len;
        self.next = next_row(sh, next);
        Some(Piece {
            q,
            at: next.at,
            len,
        })
    }
}
