// How far a window looks ahead.
ghost use Rattle.std.specs.Prelude.{◌≡◌};
ghost use Rattle.operators.specs.Windows.{following_in, relative_in, reaches, reach_of};

use super::{FrameBound, FrameUnits, LimitEffect, WindowExpr};

/// The largest following and the largest relative number of a window's expressions: its reach is their sum.
#[derive(Clone, Copy, PartialEq, Eq, Debug)]
pub struct Reach {
    pub following: u64,
    pub relative: u64,
}

impl FrameBound {
    fn following(self) -> u64
        ensures { result ≡ following_in self }
    {
        match self {
            FrameBound::Following(n) => n,
            _ => 0,
        }
    }
}

impl LimitEffect {
    fn relative(self) -> u64
        ensures { result ≡ relative_in self }
    {
        match self {
            LimitEffect::Relative(n) => n,
            _ => 0,
        }
    }
}

impl WindowExpr {
    fn reaches(self) -> bool
        ensures { result ≡ reaches self }
    {
        self.units == FrameUnits::Rows
            && matches!(self.effect, LimitEffect::None | LimitEffect::Relative(_))
            && self.end_bound != FrameBound::Other
    }
}

impl Reach {
    /// The reach of a window; none where an expression does not count in rows, or needs rows that are not known.
    pub fn of(exprs: &[WindowExpr]) -> Option<Reach>
        ensures { result ≡ reach_of exprs.now }
    {
        let mut following: u64 = 0;
        let mut relative: u64 = 0;
        for e in exprs {
            if !e.reaches() {
                return None;
            }
            following = following.max(e.end_bound.following());
            relative = relative.max(e.effect.relative());
        }
        Some(Reach {
            following,
            relative,
        })
    }
}
