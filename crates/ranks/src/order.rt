//! The order of records, and the next of a group.
ghost use Rattle.std.specs.Prelude.{◌≡◌, ◌==◌, ℕ, Bool, ◌&&◌, true, false, Option as Answer};
ghost use Rattle.std.specs.Option.{option_map};
ghost use Rattle.ranks.specs.Order.{FirstBehind, comes_after, comes_ahead};

/// A record with a group and an order. No record precedes itself, precedence chains, and two records, neither preceding
/// the other, are alike in all that the order compares.
pub trait Ranked {
    ghost group: { Self → ℕ };

    ghost precedes: { Self → Self → Bool };

    ghost alike: { Self → Self → Type 0 };

    /// The group that the record is ranked in.
    fn group(&self) -> u8
        ensures { result ≡ group self.now };

    /// Whether the record comes before the other.
    fn precedes(&self, other: &Self) -> bool
        ensures { result ≡ precedes self.now other.now };

    ghost apart: { (x : Self) → precedes x x ≡ false };

    ghost chains: { (x y z : Self) → precedes x y ≡ true → precedes y z ≡ true → precedes x z ≡ true };

    ghost ties: { (x y : Self) → precedes x y ≡ false → precedes y x ≡ false → alike x y };

    ghost same: { (x y z : Self) → alike x y → precedes x z ≡ true → precedes y z ≡ true };
}

// Whether the record is of the group and comes after the one at the start, where there is one.
fn stands<R: Ranked>(record: &R, group: u8, start: Option<&R>) -> bool
    ensures { result ≡ (R.Ranked.group «record».now == group && comes_after R.Ranked.precedes (option_map (λ s. s.now) start.entry) «record».now) }
{
    record.group() == group && start.is_none_or(|start| start.precedes(record))
}

// Whether the record comes before the best so far, or is the first to be seen.
fn leads<R: Ranked>(record: &R, best: Option<(usize, &R)>) -> bool
    ensures { result ≡ comes_ahead R.Ranked.precedes (option_map (λ b. b.1.now) best.entry) «record».now }
{
    best.is_none_or(|(_, leader)| record.precedes(leader))
}

/// The place of the group's first record behind the one at `behind`, or of all where none is given. Records that tie keep
/// the lower place, since a later one leads only where it strictly precedes.
pub fn next_in_order<R: Ranked>(list: &[R], group: u8, behind: Option<usize>) -> Option<usize>
    ensures first { FirstBehind R.Ranked.group R.Ranked.precedes list.now group behind result }
    ensures only { (other : Answer ℕ) → FirstBehind R.Ranked.group R.Ranked.precedes list.now group behind other → other ≡ result }
{
    // A `match`: `?` leaves for a place past the end.
    let start = match behind {
        Some(place) => Some(list.get(place)?),
        None => None,
    };
    let mut best: Option<(usize, &R)> = None;
    for (place, record) in list.iter().enumerate() {
        if stands(record, group, start) && leads(record, best) {
            best = Some((place, record));
        }
    }
    best.map(|(place, _)| place)
}
