//! The words of a line.
ghost use Rattle.std.specs.Prelude.{◌≡◌, not, position};
ghost use Rattle.lines.specs.Words.{blank, skip, word, rest};

// Whether this byte only separates words.
fn is_blank(byte: u8) -> bool
    ensures { result ≡ blank byte }
{
    matches!(byte, b' ' | b'\t' | b'\r')
}

// Where the first byte stands that is no blank.
fn find_solid(text: &[u8]) -> Option<usize>
    ensures { result ≡ position (λ b. not (blank b)) text.now }
{
    text.iter().position(|byte| !is_blank(*byte))
}

// Where the first blank stands.
fn find_blank(text: &[u8]) -> Option<usize>
    ensures { result ≡ position blank text.now }
{
    text.iter().position(|byte| is_blank(*byte))
}

/// What is left behind the blanks in front.
pub(crate) fn skip_blanks(text: &[u8]) -> &[u8]
    ensures { result.now ≡ skip text.now }
{
    text.split_at(find_solid(text).unwrap_or(text.len())).1
}

/// The first word, empty where there is none, and what follows it.
pub(crate) fn split_word(text: &[u8]) -> (&[u8], &[u8])
    ensures first { result.0.now ≡ word text.now }
    ensures after { result.1.now ≡ rest text.now }
{
    let text = skip_blanks(text);
    text.split_at(find_blank(text).unwrap_or(text.len()))
}
