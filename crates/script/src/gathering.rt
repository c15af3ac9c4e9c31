// A script as it is read, line by line: the calls that it makes, and what they are handed.
ghost use Rattle.std.specs.Prelude.{◌≡◌, ◌++◌, [], ◌∷◌, min, IfOk, IfErr, Some, vec_len, vec_items, OnOk, slice_index_or};
ghost use Rattle.std.specs.Option.{unwrap_or};
ghost use Rattle.theme.specs.Refusals.{or_next};
ghost use Rattle.rules.specs.Compasses.{PlainCompass};
ghost use Rattle.script.specs.Books.{any_admits, any_allows};
ghost use Rattle.script.specs.Names.{named_admits, named_allows, book_no, asked_compass, compass_no};
ghost use Rattle.script.specs.Steps.{step_of, steps_in, MakeAll};

use super::book::AnyBook;
use super::fault::Fault;
use super::statement::{BookName, Options, Question};
use super::step::Step;
use course::call::{Call, Query};
use rules::refusal::Refusal;
use standing::compass::Compass;
use std::alloc::{AllocError, Global};

/// A line that makes a call, or whose book or compass is refused so that it makes none.
#[derive(Drop)]
pub struct Row {
    pub text: String,
    pub step: Result<Step, Refusal>,
}

/// A line that has a combination written.
#[derive(Drop)]
pub struct Writing {
    pub text: String,
    pub number: usize,
}

/// A script: the books and compasses of its questions, its calls, and what is written after them.
#[derive(Drop)]
pub struct Script {
    // a course takes books and compasses by numbers of their own, so they are two lists
    pub books: Vec<AnyBook>,
    pub compasses: Vec<Compass>,
    pub rows: Vec<Row>,
    pub writings: Vec<Writing>,
}

// The book and the compass of a question.
#[derive(Drop)]
struct Handed {
    book: AnyBook,
    compass: Compass,
}

// The book of a name and the compass of some options.
fn hand(book: BookName, options: Options) -> Result<Handed, Refusal>
    ensures book { IfOk result (λ handed. (any_admits handed.book ≡ named_admits book) × (any_allows handed.book ≡ named_allows book)) }
    ensures compass { IfOk result (λ handed. handed.compass ≡ asked_compass options) }
    ensures refused { IfErr result (λ refusal. or_next (book_no book) (compass_no options) ≡ Some refusal) }
{
    Ok(Handed {
        book: book.book()?,
        compass: options.compass()?,
    })
}

impl Script {
    /// A script without lines.
    pub fn empty(heap: Global) -> Script
        ensures handed { (vec_items result.books ≡ []) × (vec_items result.compasses ≡ []) }
        ensures lines { (vec_items result.rows ≡ []) × (vec_items result.writings ≡ []) }
    {
        Script {
            books: Vec::new(heap),
            compasses: Vec::new(heap),
            rows: Vec::new(heap),
            writings: Vec::new(heap),
        }
    }

    /// The step of a question, whose book and compass are kept, or why there is none.
    /// An outer error ends the reading; an inner one is what the row is answered.
    pub fn ask(&mut self, question: Question) -> Result<Result<Step, Refusal>, Fault>
        ensures book { IfOk result (λ asked. OnOk asked ((d : AnyBook) → (any_admits (slice_index_or self.new.books.items (vec_len self.old.books) d) ≡ named_admits question.book) × (any_allows (slice_index_or self.new.books.items (vec_len self.old.books) d) ≡ named_allows question.book))) }
        ensures compass { IfOk result (λ asked. OnOk asked ((d : PlainCompass) → slice_index_or self.new.compasses.items (vec_len self.old.compasses) d ≡ asked_compass question.options)) }
        ensures refused { IfOk result (λ asked. IfErr asked (λ refusal. or_next (book_no question.book) (compass_no question.options) ≡ Some refusal)) }
        ensures step { IfOk result (λ asked. IfOk asked (λ step. step ≡ step_of question.asks (record { book = vec_len self.old.books; compass = vec_len self.old.compasses; room = min (unwrap_or question.options.room 3072) 3072 }) (min (unwrap_or question.options.cells 64) 64))) }
    {
        let Question {
            asks,
            book,
            options,
        } = question;
        match hand(book, options) {
            Ok(handed) => {
                let Handed { book, compass } = handed;
                let query = Query {
                    book: self.books.len(),
                    compass: self.compasses.len(),
                    room: options.room(),
                };
                self.books.push(book)?;
                self.compasses.push(compass)?;
                Ok(Ok(Step::asking(asks, query, options.cells())))
            }
            Err(refusal) => Ok(Err(refusal)),
        }
    }

    /// Adds a line that makes a call; none comes after what is written.
    pub fn add_row(&mut self, text: String, step: Result<Step, Refusal>) -> Result<(), Fault>
        ensures first { OnOk result (vec_len self.old.writings ≡ 0) }
        ensures row { OnOk result (vec_items self.new.rows ≡ vec_items self.old.rows ++ (record { text = text; step = step } ∷ [])) }
    {
        if !self.writings.is_empty() {
            return Err(Fault::NotACall);
        }
        self.rows.push(Row { text, step })?;
        Ok(())
    }

    /// Adds a line that has a combination written.
    pub fn add_writing(&mut self, text: String, number: usize) -> Result<(), Fault>
        ensures { OnOk result (vec_items self.new.writings ≡ vec_items self.old.writings ++ (record { text = text; number = number } ∷ [])) }
    {
        self.writings.push(Writing { text, number })?;
        Ok(())
    }

    /// The calls in their order.
    pub fn calls(&self, heap: Global) -> Result<Vec<Call<'_>>, AllocError>
        ensures { IfOk result (λ calls. MakeAll (steps_in self.now.rows.items) calls.items) }
    {
        let mut calls = Vec::new(heap);
        for row in self.rows.iter() {
            if let Ok(step) = &row.step {
                calls.push(step.call())?;
            }
        }
        Ok(calls)
    }
}
