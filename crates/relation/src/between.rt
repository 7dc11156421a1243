// The walk over the events between two, which decides whether the first is parallel to the second.
ghost use Rattle.std.specs.Prelude.{◌≡◌, true, ◌+◌, ◌≤◌, ◌<◌};
ghost use Rattle.jobfile.specs.Trace.{event_at, moves};
ghost use Rattle.relation.specs.Walk.{move, par};
ghost use Rattle.relation.specs.Between.{walker_of, Stretch};

use jobfile::{Move, event_at, move_of};

// How far the current task lies under the innermost open task that contained the start, and
// whether the start is parallel to where the walk stands.
#[derive(Clone, Copy, Default)]
pub struct Walker {
    pub height: usize,
    pub par: bool,
}

// Whether event p is parallel to event q. One pass over the events between them.
// requires: q is an event of the part, and no end up to it closes the root.
pub fn parallel(part: &[u8], p: usize, q: usize) -> bool
    requires { Stretch part.now p q }
    ensures { result ≡ par (moves (event_at part.now)) p q }
{
    let mut w = Walker::default();
    for n in p..q {
        w = w.moved(move_of(event_at(part, n)));
    }
    w.par
}

impl Walker {
    // One event further. Every task that an end closes was spawned.
    // requires: the height is below the limit of events, so that it does not wrap.
    fn moved(self, m: Move) -> Walker
        requires { self.height < 1000000 }
        ensures result_value { walker_of result ≡ move m true (walker_of self) }
        ensures height_bound { result.height ≤ self.height + 1 }
    {
        match m {
            Move::Opens => Walker {
                height: self.height + 1,
                ..self
            },
            Move::Closes if self.height == 0 => Walker { par: true, ..self },
            Move::Closes => Walker {
                height: self.height - 1,
                ..self
            },
            Move::Joins if self.height == 0 => Walker { par: false, ..self },
            Move::Joins | Move::Stays => self,
        }
    }
}
