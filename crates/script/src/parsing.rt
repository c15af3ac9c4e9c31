// What the words of a line say. Knows nothing of what becomes of it.
ghost use Rattle.std.specs.Prelude.{◌≡◌, ◌≢◌, ◌<◌, ◌≤◌, true, length, slice_index, Ok, None, IfSome, IfOk, IfErr, vec_len, MatchResult, OnOk};
ghost use Rattle.script.specs.declared.fault.Fault.TheVariants.{NotACall};
ghost use Rattle.script.specs.declared.book.Rules.TheVariants.{Strict, Free};
ghost use Rattle.script.specs.Spelling.{rules_word, Spells};
ghost use Rattle.script.specs.Changes.{is_change, is_check, ChangesOnly};

use super::book::Rules;
use super::fault::Fault;
use super::statement::{Asks, BookName, Keys, Options, Question, Statement};
use course::call::Call;
use rules::setting::Setting;
use rules::trial::Trial;
use std::alloc::Global;
use std::str::FromStr;

// The number that a word is.
fn number<N: FromStr>(word: &str) -> Result<N, Fault>
where
    N::Err: Drop,
    ensures { MatchResult result (λ n. N.from_str_gives word.now (Ok n)) (λ fault. fault ≡ NotACall) }
{
    word.parse().map_err(|_| Fault::NotACall)
}

// The number that some words are.
fn one<N: FromStr>(words: &[&str]) -> Result<N, Fault>
where
    N::Err: Drop,
    ensures { MatchResult result (λ _. length words.now ≡ 1) (λ fault. fault ≡ NotACall) }
{
    match words {
        [word] => number(word),
        _ => Err(Fault::NotACall),
    }
}

// The two numbers that some words are.
fn two<L: FromStr, N: FromStr>(words: &[&str]) -> Result<(L, N), Fault>
where
    L: Drop,
    L::Err: Drop,
    N::Err: Drop,
    ensures { MatchResult result (λ _. length words.now ≡ 2) (λ fault. fault ≡ NotACall) }
{
    match words {
        [first, second] => Ok((number(first)?, number(second)?)),
        _ => Err(Fault::NotACall),
    }
}

impl FromStr for Rules {
    type Err = Fault;

    ghost from_str_gives = { λ text r. MatchResult r (λ rules. text ≡ rules_word rules) (λ fault. (fault ≡ NotACall) × (text ≢ rules_word Strict) × (text ≢ rules_word Free)) };

    fn from_str(word: &str) -> Result<Rules, Fault> {
        match word {
            "strict" => Ok(Rules::Strict),
            "free" => Ok(Rules::Free),
            _ => Err(Fault::NotACall),
        }
    }
}

// A book by its word, as `strict` or `free+7`.
impl FromStr for BookName {
    type Err = Fault;

    ghost from_str_gives = { λ text r. MatchResult r (λ name. Spells name text) (λ fault. fault ≡ NotACall) };

    fn from_str(word: &str) -> Result<BookName, Fault> {
        let (rules, shift) = match word.split_once('+') {
            Some((name, shift)) => (name.parse()?, Some(number(shift)?)),
            None => (word.parse()?, None),
        };
        Ok(BookName { rules, shift })
    }
}

// Takes an option that is not given yet off the front of some words, and gives the words behind it.
fn take_option<'a, 'w>(options: &mut Options, words: &'a [&'w str]) -> Result<&'a [&'w str], Fault>
    ensures { MatchResult result (λ rest. length rest.now < length words.now) (λ fault. fault ≡ NotACall) }
{
    match words {
        ["keys", lowest, highest, rest @ ..] if options.keys.is_none() => {
            let (lowest, highest) = (number(lowest)?, number(highest)?);
            options.keys = Some(Keys { lowest, highest });
            Ok(rest)
        }
        ["try", place, key, rest @ ..] if options.trial.is_none() => {
            let (place, key) = (number(place)?, number(key)?);
            options.trial = Some(Trial { place, key });
            Ok(rest)
        }
        ["room", room, rest @ ..] if options.room.is_none() => {
            options.room = Some(number(room)?);
            Ok(rest)
        }
        ["cells", cells, rest @ ..] if options.cells.is_none() => {
            options.cells = Some(number(cells)?);
            Ok(rest)
        }
        _ => Err(Fault::NotACall),
    }
}

// Whether an option is to come next.
fn goes_on(words: &[&str]) -> bool {
    words.first().is_some_and(|word| *word != "line")
}

// The options at the front of some words, with those that are read already, and the words behind them.
// A loop that assigns the words anew is tried and not covered: what it lends differs where its turns join.
fn options<'a, 'w>(
    mut read: Options,
    words: &'a [&'w str],
) -> Result<(Options, &'a [&'w str]), Fault>
    ensures { IfErr result (λ fault. fault ≡ NotACall) }
{
    if !goes_on(words) {
        return Ok((read, words));
    }
    let rest = take_option(&mut read, words)?;
    options(read, rest)
}

// The book that the first word names, the options behind it, and the words behind those.
fn asked<'a, 'w>(words: &'a [&'w str]) -> Result<(BookName, Options, &'a [&'w str]), Fault>
    ensures { IfErr result (λ fault. fault ≡ NotACall) }
{
    let [book, words @ ..] = words else {
        return Err(Fault::NotACall);
    };
    let book = book.parse()?;
    let (options, words) = options(Options::default(), words)?;
    Ok((book, options, words))
}

// A question about the book that the first word names, whose words end with the options.
fn question(asks: Asks, words: &[&str]) -> Result<Question, Fault>
    ensures { MatchResult result (λ asked. asked.asks ≡ asks) (λ fault. fault ≡ NotACall) }
{
    let (book, options, []) = asked(words)? else {
        return Err(Fault::NotACall);
    };
    Ok(Question {
        asks,
        book,
        options,
    })
}

// The question for the line with a number, which is the first word.
fn pick(words: &[&str]) -> Result<Question, Fault>
    ensures { IfErr result (λ fault. fault ≡ NotACall) }
{
    match words {
        [word, words @ ..] => {
            let number = number(word)?;
            question(Asks::Pick { number }, words)
        }
        _ => Err(Fault::NotACall),
    }
}

// The cells of a line.
fn cells(heap: Global, words: &[&str]) -> Result<Vec<u8>, Fault>
    ensures { IfOk result (λ cells. vec_len cells ≡ length words.now) }
{
    let mut cells = Vec::new(heap);
    for word in words {
        cells.push(number(word)?)?;
    }
    Ok(cells)
}

// The question whether a line stands, whose cells come after the options.
fn check(heap: Global, words: &[&str]) -> Result<Question, Fault>
    ensures { IfOk result (λ asked. is_check asked.asks ≡ true) }
{
    let (book, options, ["line", line @ ..]) = asked(words)? else {
        return Err(Fault::NotACall);
    };
    Ok(Question {
        asks: Asks::Check {
            line: cells(heap, line)?,
        },
        book,
        options,
    })
}

// The shift and the entry of a combination.
fn setting(words: &[&str]) -> Result<Setting, Fault>
    ensures { IfErr result (λ fault. fault ≡ NotACall) }
{
    let (jv, entry) = two(words)?;
    Ok(Setting { jv, entry })
}

// A change of the sheet, or its closing or reopening.
fn change(verb: &str, words: &[&str]) -> Result<Call<'static>, Fault>
    ensures { MatchResult result (λ call. is_change call ≡ true) (λ fault. fault ≡ NotACall) }
{
    match verb {
        "add" => Ok(Call::Add {
            setting: setting(words)?,
        }),
        "drop" => Ok(Call::Drop {
            setting: setting(words)?,
        }),
        "fix" => {
            let (place, key) = two(words)?;
            Ok(Call::Fix { place, key })
        }
        "free" => Ok(Call::Free { place: one(words)? }),
        "close" if words.is_empty() => Ok(Call::Close),
        "reopen" if words.is_empty() => Ok(Call::Reopen),
        _ => Err(Fault::NotACall),
    }
}

// The name of a file.
fn file(heap: Global, words: &[&str]) -> Result<String, Fault>
    ensures { OnOk result (length words.now ≡ 1) }
{
    match words {
        [file] => Ok(String::from_str(heap, file)?),
        _ => Err(Fault::NotACall),
    }
}

// What a line says by its first word and the others.
fn statement(heap: Global, verb: &str, words: &[&str]) -> Result<Statement, Fault>
    ensures { IfOk result ChangesOnly }
{
    Ok(match verb {
        "load" => Statement::Load {
            file: file(heap, words)?,
        },
        "decide" => Statement::Ask(question(Asks::Decide, words)?),
        "count" => Statement::Ask(question(Asks::Count, words)?),
        "weigh" => Statement::Ask(question(Asks::Weigh, words)?),
        "least" => Statement::Ask(question(Asks::Least, words)?),
        "pick" => Statement::Ask(pick(words)?),
        "check" => Statement::Ask(check(heap, words)?),
        "write" => Statement::Write {
            number: one(words)?,
        },
        _ => Statement::Change(change(verb, words)?),
    })
}

/// What a line says; an empty line and one that begins with `#` say nothing.
pub fn line_says(heap: Global, text: &str) -> Result<Option<Statement>, Fault>
    ensures change { IfOk result (λ said. IfSome said ChangesOnly) }
    ensures remark { slice_index text.now 0 ≡ 35 → result ≡ Ok None }
{
    if text.starts_with('#') {
        return Ok(None);
    }
    let words: Vec<&str> = text.split_whitespace().collect(heap)?;
    match words.as_slice() {
        [verb, words @ ..] => Ok(Some(statement(heap, verb, words)?)),
        _ => Ok(None),
    }
}
