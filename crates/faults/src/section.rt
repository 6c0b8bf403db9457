//! The two sections of a session file.
ghost use Rattle.std.specs.Prelude.{◌≡◌};
ghost use Rattle.faults.specs.Sections.{offset_at, width};

/// One of the two lists of records that a file holds.
#[derive(Clone, Copy, PartialEq, Eq, Debug)]
pub enum Section {
    Deposits,
    Events,
}

impl Section {
    /// Where the header keeps this section's offset.
    pub fn offset_at(self) -> usize
        ensures { result ≡ offset_at self }
    {
        match self {
            Section::Deposits => 8,
            Section::Events => 12,
        }
    }

    /// How many bytes a record of this section has.
    pub fn width(self) -> usize
        ensures { result ≡ width self }
    {
        match self {
            Section::Deposits => 4,
            Section::Events => 16,
        }
    }
}
