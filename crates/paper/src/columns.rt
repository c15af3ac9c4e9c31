// Numbers with a sign in four columns. Knows nothing of what is written with them.
ghost use Rattle.std.specs.Prelude.{◌≡◌};
ghost use Rattle.paper.specs.Columns.{minus_column, minus_columns, signed_columns};
ghost use Rattle.theme.specs.Fields.{column};

use theme::field::columns;

// One column of a number below zero, by its size and the column that the size alone has there.
fn minus_column(size: u32, power: u32, plain: u8) -> u8
    requires { plain ≡ column size power }
    ensures { result ≡ minus_column size power }
{
    if size < power && size >= power / 10 {
        b'-'
    } else {
        plain
    }
}

// By hand for the reason beside `columns` of a theme's fields.
// A number right-justified in four columns, a minus next to its first digit.
pub(crate) fn signed_columns(number: i32) -> [u8; 4]
    ensures { result ≡ signed_columns number }
{
    let size = number.unsigned_abs();
    let [a, b, c, d] = columns(size);
    if number >= 0 {
        [a, b, c, d]
    } else {
        [
            minus_column(size, 1000, a),
            minus_column(size, 100, b),
            minus_column(size, 10, c),
            d,
        ]
    }
}
