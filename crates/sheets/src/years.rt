//! What a share of each of the seven years weighs.
ghost use Rattle.std.specs.Prelude.{◌≡◌, ◌+◌, ◌^◌, ◌<◌, fold};
ghost use Rattle.sheets.specs.Years.{weight_in, all_years};

/// The weights of the years, the first year's first.
pub const YEAR_WEIGHTS: [u16; 7] = [100, 86, 71, 57, 43, 29, 14];

/// What a share of the year weighs, for a year from 1 to 7.
pub fn year_weight(year: u8) -> Option<u16>
    ensures { result ≡ weight_in year }
{
    let place = usize::from(year).checked_sub(1)?;
    YEAR_WEIGHTS.get(place).copied()
}

// The weights together.
fn total(weights: &[u16]) -> u16
    requires { fold (λ a x. a + x) 0 weights.now < 2 ^ 16 }
    ensures { result ≡ fold (λ a x. a + x) 0 weights.now }
{
    weights.iter().sum()
}

/// What a share of all seven years weighs: 400.
pub fn full_term_weight() -> u16
    ensures sum { result ≡ all_years }
    ensures value { result ≡ 400 }
{
    total(&YEAR_WEIGHTS)
}
