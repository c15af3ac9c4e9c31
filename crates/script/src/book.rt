// The books that a script can name, as one book. Knows nothing of scripts.
ghost use Rattle.std.specs.Prelude.{◌≡◌};
ghost use Rattle.script.specs.Books.{rules_admit, rules_allow, any_admits, any_allows};
ghost use Rattle.std.proofs.Common.{rules};

use books::free::Free;
use books::strict::Strict;
use books::vertical::Vertical;
use counterpoint::book::Book;
use counterpoint::moments::{Moment, Succession};

/// The two books that have names.
#[derive(Clone, Copy, PartialEq, Eq, Hash, Debug)]
pub enum Rules {
    Strict,
    Free,
}

impl Book for Rules {
    ghost admits = { rules_admit };

    ghost allows = { rules_allow };

    ghost bounded = { Prim.search rules };

    fn admits(&self, moment: Moment) -> bool {
        match self {
            Rules::Strict => Strict.admits(moment),
            Rules::Free => Free.admits(moment),
        }
    }

    fn allows(&self, succession: Succession) -> bool {
        match self {
            Rules::Strict => Strict.allows(succession),
            Rules::Free => Free.allows(succession),
        }
    }
}

/// One of them, bare or under one layer.
#[derive(Drop)]
pub enum AnyBook {
    Bare(Rules),
    Layered(Vertical<Rules>),
}

impl Book for AnyBook {
    ghost admits = { any_admits };

    ghost allows = { any_allows };

    ghost bounded = { Prim.search rules };

    fn admits(&self, moment: Moment) -> bool {
        match self {
            AnyBook::Bare(rules) => rules.admits(moment),
            AnyBook::Layered(layer) => layer.admits(moment),
        }
    }

    fn allows(&self, succession: Succession) -> bool {
        match self {
            AnyBook::Bare(rules) => rules.allows(succession),
            AnyBook::Layered(layer) => layer.allows(succession),
        }
    }
}
