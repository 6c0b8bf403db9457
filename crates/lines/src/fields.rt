//! The numbers that follow a line's first word.
ghost use Rattle.std.specs.Prelude.{◌≡◌, ◌<◌, ◌≤◌, IfOk};
ghost use Rattle.std.specs.Char.{is_ascii_digit};
ghost use Rattle.std.specs.List.{list_all};
ghost use Rattle.lines.specs.Fields.{number_in, fields, Under};

use crate::fault::LineFault;
use crate::words::{skip_blanks, split_word};
use std::str;

// Whether the word is digits alone.
fn all_digits(word: &[u8]) -> bool
    ensures { result ≡ list_all is_ascii_digit word.now }
{
    word.iter().all(u8::is_ascii_digit)
}

// The number that a word writes in this field, which holds `most` at most.
fn number(word: &[u8], field: u8, most: u64) -> Result<u64, LineFault>
    ensures read { result ≡ number_in most field word.now }
    ensures within { IfOk result (λ n. n ≤ most) }
{
    if word.is_empty() {
        return Err(LineFault::Missing(field));
    }
    // `parse` alone would take a sign too.
    if !all_digits(word) {
        return Err(LineFault::NotANumber(field));
    }
    // Digits are text.
    match str::from_utf8(word).unwrap().parse::<u64>() {
        Ok(number) if number <= most => Ok(number),
        _ => Err(LineFault::TooLarge(field, most)),
    }
}

/// The numbers that the text holds, one for each limit, and nothing else.
pub(crate) fn read_fields<const N: usize>(
    text: &[u8],
    limits: [u64; N],
) -> Result<[u64; N], LineFault>
    requires { N < 256 }
    ensures read { result ≡ fields limits.entry 1 text.now }
    ensures within { IfOk result (Under limits.entry) }
{
    let mut numbers = [0; N];
    let mut left = text;
    // By index: a refusal tells the field's number.
    for (i, most) in limits.iter().enumerate() {
        let (word, after) = split_word(left);
        numbers[i] = number(word, i as u8 + 1, *most)?;
        left = after;
    }
    if skip_blanks(left).is_empty() {
        Ok(numbers)
    } else {
        Err(LineFault::Surplus)
    }
}
