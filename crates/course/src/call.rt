// Calls as data. Knows nothing of how they are answered.
use rules::setting::Setting;

/// What every question is handed: the numbers of its book and its compass among those there are, and how
/// many working values.
#[derive(Clone, Copy, PartialEq, Eq, Debug)]
pub struct Query {
    pub book: usize,
    pub compass: usize,
    pub room: usize,
}

/// A question. `cells` is the length of the line buffer that it is lent.
#[derive(Clone, Copy, PartialEq, Eq, Debug)]
pub enum Question<'a> {
    Decide { cells: usize },
    Count,
    Weigh,
    Pick { cells: usize, number: u32 },
    Least { cells: usize },
    Check { line: &'a [u8] },
}

/// A call with all that it is handed.
#[derive(Clone, Copy, PartialEq, Eq, Debug)]
pub enum Call<'a> {
    Load {
        page: &'a [u8],
    },
    Add {
        setting: Setting,
    },
    Drop {
        setting: Setting,
    },
    Fix {
        place: usize,
        key: u8,
    },
    Free {
        place: usize,
    },
    Close,
    Reopen,
    Ask {
        query: Query,
        question: Question<'a>,
    },
}
