// Which cells make a line. Knows nothing of themes, books or sheets.
// A cell is a number, since the rules know it by its number.
ghost use Rattle.std.specs.Prelude.{◌≡◌};
ghost use Rattle.rules.specs.Cells.{key_of, held_cell, cell_lawful, wrong_cell};

/// The number of different cells: two for each of the 24 keys. The engine has it as a `usize`, which counts memory.
pub const CELLS: u8 = 48;

/// The key of a cell.
pub fn key_of(cell: u8) -> u8
    ensures { result ≡ key_of cell }
{
    cell / 2
}

/// Whether a cell is held over from the place before.
pub fn is_held(cell: u8) -> bool
    ensures { result ≡ held_cell cell }
{
    cell % 2 == 1
}

/// Whether a cell may stand behind another, or first where there is none.
pub fn is_lawful(before: Option<u8>, cell: u8) -> bool
    ensures { result ≡ cell_lawful before cell }
{
    let struck = !is_held(cell);
    match before {
        None => cell < CELLS && struck,
        Some(before) => cell < CELLS && (struck || key_of(before) == key_of(cell)),
    }
}

/// The first place at which cells are no line, if there is one.
pub fn wrong_cell(cells: &[u8]) -> Option<usize>
    ensures { result ≡ wrong_cell cells.now }
{
    // a loop, as each cell is held against the one before it
    let mut before = None;
    for (place, cell) in cells.iter().enumerate() {
        if !is_lawful(before, *cell) {
            return Some(place);
        }
        before = Some(*cell);
    }
    None
}
