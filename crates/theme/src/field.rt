// Numbers in four columns, as every field of a page has them. Knows nothing of themes.
ghost use Rattle.std.specs.Prelude.{◌≡◌, ℕ, ◌<◌, drop, Some, None, MatchResult};
ghost use Rattle.theme.specs.Fields.{columns_of, column, worth, number_in};

/// The text begins with no number in four columns.
#[derive(Clone, Copy, PartialEq, Eq, Debug)]
pub(crate) struct NotANumber;

// One column of a number: its digit at this power of ten, blank left of the first digit.
fn column(number: u32, power: u32) -> u8
    requires { 0 < power }
    ensures { result ≡ column number power }
{
    if number < power {
        b' '
    } else {
        b'0' + (number / power % 10) as u8
    }
}

// Not by `{:>4}`: `format!` asks for memory, which only making a blank sheet may, and `write!` into
// lent bytes needs a writer of our own.
/// A number right-justified in four columns, with blanks to the left and no leading zero.
pub fn columns(number: u32) -> [u8; 4]
    ensures { result ≡ columns_of number }
{
    [
        column(number, 1000),
        column(number, 100),
        column(number, 10),
        b'0' + (number % 10) as u8,
    ]
}

// What a byte counts for if it is a digit, and 0 for a blank.
fn worth(byte: u8) -> u32
    ensures { result ≡ worth byte }
{
    u32::from(byte.saturating_sub(b'0'))
}

// Reads the number in the first four bytes of `text`, and gives it with the rest.
// Four bytes are a number exactly if that number, written in columns, gives them back.
pub(crate) fn read_field(text: &[u8]) -> Result<(u32, &[u8]), NotANumber>
    ensures { MatchResult result (λ x. (number_in text.now ≡ Some x.0) × (x.1.now ≡ drop 4 text.now)) (λ _. number_in text.now ≡ None) }
{
    let Some((field, rest)) = text.split_first_chunk::<4>() else {
        return Err(NotANumber);
    };
    let number = 1000 * worth(field[0])
        + 100 * worth(field[1])
        + 10 * worth(field[2])
        + worth(field[3]);
    if columns(number) == *field {
        Ok((number, rest))
    } else {
        Err(NotANumber)
    }
}
