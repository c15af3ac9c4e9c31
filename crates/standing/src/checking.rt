// Whether a given line stands, and if not, where it first fails.
// Knows nothing of measures.
ghost use Rattle.std.specs.Prelude.{◌≡◌, length};
ghost use Rattle.theme.specs.Refusals.{answer, or_next};
ghost use Rattle.rules.specs.Plain.{places_of};
ghost use Rattle.rules.specs.Questions.{at_place, unkept, denied, denied_in, check_no};
ghost use Rattle.rules.specs.declared.refusal.Refusal.TheVariants.{NotKept};
ghost use Rattle.rules.specs.Laws.{Checked};
ghost use Rattle.rules.specs.Courses.{Check, closed_at};
ghost use Rattle.rules.specs.Faults.{Kept, told_done, unweighed};
ghost use Rattle.standing.specs.Asking.{asked_by, handed_by};

use super::asking::Asking;
use super::meeting::Meeting;
use counterpoint::book::Book;
use rules::refusal::Refusal;
use sheet::cells::wrong_cell;

// An asking and a line as long as its theme.
#[derive(Drop)]
struct Judged<'a, B> {
    asking: &'a Asking<'a, B>,
    line: &'a [u8],
    ghost long: { length line.now ≡ places_of asking.now.sheet.now },
}

impl<B: Book> Judged<'_, B> {
    // The first place at which the line does not keep the compass, the trial or the key fixed there.
    fn first_unkept(&self) -> Option<usize>
        ensures { result ≡ unkept (asked_by B.admits B.allows self.now.asking.now) self.now.line.now }
    {
        self.line
            .iter()
            .enumerate()
            .position(|(place, cell)| !self.asking.keeps_all(place, *cell))
    }

    // The first place of a meeting at which the book says no to the moment or to the succession out of it.
    fn first_denied(&self, meeting: &Meeting<'_>) -> Option<usize>
        requires { meeting.now.sheet.now ≡ self.now.asking.now.sheet.now }
        ensures { result ≡ denied (asked_by B.admits B.allows self.now.asking.now) self.now.line.now meeting.now.combination }
    {
        let line = self.line;
        line.iter().enumerate().position(|(place, cell)| {
            let next = line[(place + 1) % line.len()];
            !meeting.pleases(self.asking.book, place, *cell, next)
        })
    }

    // Sees that the book says yes everywhere in each listed combination.
    // A loop: in a closure for `find_map` the two facts of a meeting stay open, and a clause there would say them again.
    fn check_agreed(&self) -> Result<(), Refusal>
        ensures { result ≡ answer tt (denied_in (asked_by B.admits B.allows self.now.asking.now) self.now.line.now 0 self.now.asking.now.sheet.now.list) }
    {
        let sheet = self.asking.sheet;
        let combinations = sheet.combinations();
        for (number, combination) in combinations.iter().enumerate() {
            let meeting = Meeting {
                sheet,
                combination: *combination,
            };
            if let Some(place) = self.first_denied(&meeting) {
                return Err(Refusal::BookSaysNo {
                    combination: number,
                    place,
                });
            }
        }
        Ok(())
    }

    // Sees that the line keeps compass, trial and fixings, and that the book says yes everywhere.
    fn check_places(&self) -> Result<(), Refusal>
        ensures { result ≡ answer tt (or_next (at_place NotKept (unkept (asked_by B.admits B.allows self.now.asking.now) self.now.line.now)) (denied_in (asked_by B.admits B.allows self.now.asking.now) self.now.line.now 0 self.now.asking.now.sheet.now.list)) }
    {
        if let Some(place) = self.first_unkept() {
            return Err(Refusal::NotKept { place });
        }
        self.check_agreed()
    }
}

/// Sees whether a line stands.
pub fn check<B: Book>(asking: &Asking<'_, B>, line: &[u8]) -> Result<(), Refusal>
    ensures answer { result ≡ answer tt (check_no (asked_by B.admits B.allows asking.now) line.now) }
    ensures law { Checked (asked_by B.admits B.allows asking.now) result line.now }
    ensures course { Kept unweighed (closed_at asking.now.sheet.now) (Check (handed_by B.admits B.allows asking.now) line.now) (told_done result) (closed_at asking.now.sheet.now) }
{
    let places = asking.check_trial()?;
    if line.len() != places {
        return Err(Refusal::LineUnfit);
    }
    if let Some(place) = wrong_cell(line) {
        return Err(Refusal::NotALine { place });
    }
    Judged { asking, line }.check_places()
}
