//! An opening's row: seven increments of two bytes each.
ghost use Rattle.std.specs.Prelude.{◌≡◌};
ghost use Rattle.records.specs.Bytes.{bytes_of};
ghost use Rattle.lines.specs.Row.{row_of, increments};

use std::array;

// The two lowest bytes of a number, the higher one first.
fn low_bytes(number: u64) -> [u8; 2]
    ensures { result ≡ bytes_of 2 number }
{
    let [.., high, low] = number.to_be_bytes();
    [high, low]
}

/// The row that keeps these increments.
pub(crate) fn row_of(steps: [u64; 7]) -> [u8; 14]
    ensures { result ≡ row_of steps }
{
    let pairs = steps.map(low_bytes);
    let mut row = [0; 14];
    row.copy_from_slice(pairs.as_flattened());
    row
}

/// The increments that a row keeps.
pub(crate) fn steps_of(row: &[u8; 14]) -> [u16; 7]
    ensures { result ≡ increments row.now }
{
    array::from_fn(|i| u16::from_be_bytes([row[2 * i], row[2 * i + 1]]))
}
