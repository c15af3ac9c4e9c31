// What a question needs: places that can be, and room for its working values and its line.
// Knows nothing of passages or measures.
ghost use Rattle.std.specs.Prelude.{◌≡◌};
ghost use Rattle.engine.specs.Answers.{first_no, line_questions, pick_questions, room_questions, unless};

use crate::unfit::Unfit;
use crate::verdicts::{CELLS, PLACES};

/// Refuses unless there are 1 to 64 places and 48 values of working memory for each.
pub(crate) fn room_for(n: usize, room: usize) -> Result<(), Unfit>
    ensures { result ≡ unless (first_no (room_questions n room)) tt }
{
    if n < 1 || n > PLACES {
        return Err(Unfit::Places);
    }
    if room < CELLS * n {
        return Err(Unfit::Memory);
    }
    Ok(())
}

/// Refuses unless there is a cell for each place in the line buffer too.
pub(crate) fn line_for(n: usize, room: usize, cells: usize) -> Result<(), Unfit>
    ensures { result ≡ unless (first_no (line_questions n room cells)) tt }
{
    room_for(n, room)?;
    if cells < n {
        return Err(Unfit::Line);
    }
    Ok(())
}

/// Refuses unless the number is one that can be counted to as well.
pub(crate) fn pick_for(n: usize, room: usize, cells: usize, k: u32) -> Result<(), Unfit>
    ensures { result ≡ unless (first_no (pick_questions n room cells k)) tt }
{
    line_for(n, room, cells)?;
    if k > 999_999_999 {
        return Err(Unfit::Number);
    }
    Ok(())
}
