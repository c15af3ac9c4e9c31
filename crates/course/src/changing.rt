// The calls that a draft takes. Knows nothing of books.
ghost use Rattle.std.specs.Prelude.{◌≡◌, Option};
ghost use Rattle.rules.specs.Courses.{Handed, draft_at};
ghost use Rattle.rules.specs.Faults.{Kept};
ghost use Rattle.course.specs.Holding.{reached_by, told};
ghost use Rattle.course.specs.Naming.{Sizes, as_call};
ghost use Rattle.course.specs.declared.call.Query.{Query};

use super::answer::Answer;
use super::call::Call;
use super::state::{State, Step};
use measure::algebra::Measure;
use sheet::draft::Draft;

// Plays one call on a draft.
pub(crate) fn change<M: Measure>(mut draft: Draft, call: Call<'_>) -> Step<M>
    ensures { (hand : Query → Option Handed) (s : Sizes) → Kept M.ring (draft_at draft) (as_call hand s call.entry) (told result.answer) (reached_by result.state) }
{
    let answer = match call {
        Call::Load { page } => draft.load(page).into(),
        Call::Add { setting } => draft.add(setting).into(),
        Call::Drop { setting } => draft.drop(setting).into(),
        Call::Fix { place, key } => draft.fix(place, key).into(),
        Call::Free { place } => draft.free(place).into(),
        Call::Close => {
            return Step {
                state: State::Shut(draft.close()),
                answer: Answer::Done,
            };
        }
        Call::Reopen | Call::Ask { .. } => Answer::Away,
    };
    Step {
        state: State::Open(draft),
        answer,
    }
}
