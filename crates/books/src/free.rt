// The free book.
// Knows nothing of the strict one.
ghost use Rattle.std.specs.Prelude.{◌≡◌};
ghost use Rattle.books.specs.Free.{free_admits, free_allows};
ghost use Rattle.std.proofs.Common.{rules};

use crate::motion::Motion;
use counterpoint::book::Book;
use counterpoint::interval::{is_dissonant, is_interval_in_range};
use counterpoint::moments::{Accent, Moment, Succession, Voice};

/// The free book: it refuses unprepared strong dissonances, far leaps, and parallel perfect consonances.
#[derive(Clone, Copy, PartialEq, Eq, Hash, Debug)]
pub struct Free;

impl Book for Free {
    ghost admits = { λ _. free_admits };

    ghost allows = { λ _. free_allows };

    ghost bounded = { Prim.search rules };

    fn admits(&self, moment: Moment) -> bool {
        let bare = (moment.line, moment.theme, moment.accent)
            == (Voice::Struck, Voice::Struck, Accent::Strong);
        is_interval_in_range(moment.interval) && !(bare && is_dissonant(moment.interval))
    }

    fn allows(&self, succession: Succession) -> bool {
        Motion::of(succession).is_some_and(|motion| {
            motion.steps.line.unsigned_abs() <= 9 && !motion.is_parallel()
        })
    }
}
