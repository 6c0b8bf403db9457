//! The calls of the table of accounts.
ghost use Rattle.std.specs.Prelude.{◌≡◌, ◌-◌, ◌<◌, ◌≤◌, true, false, [], ◌∷◌, ◌++◌, map, length, get_or, take, MatchOption, is_ok, nat_lt, slice_index_or, slice_set};
ghost use Rattle.rules.specs.Sales.{nobody, dollars, outside};
ghost use Rattle.accounts.specs.Accounts.{with_opened, with_cut, cut_by};
ghost use Rattle.accounts.specs.Seated.{seated, plain_of};

use crate::account::SeatAccount;
use crate::seats::{MOST_SEATS, NoSeatLeft, Seats};
use rules::Account;

impl Seats {
    /// No seats yet.
    pub fn none() -> Seats
        ensures { seated result ≡ [] }
    {
        Seats {
            count: 0,
            rows: [SeatAccount::default(); MOST_SEATS],
        }
    }

    /// The accounts that deposits buy, the first seat's first: each deposit's dollars over 500, rounded down. Past 24
    /// no deposit is read.
    pub fn of_deposits(deposits: &[u32]) -> Seats
        ensures { seated result ≡ map dollars (take 24 deposits.now) }
    {
        // No more than 24 are opened, which is proved: `unwrap` tests nothing.
        let mut seats = Seats::none();
        for dollars in &deposits[..deposits.len().min(MOST_SEATS)] {
            seats.open_account(*dollars / 500).unwrap();
        }
        seats
    }

    /// How many seats there are.
    pub fn count(&self) -> usize
        ensures count { result ≡ length (seated self.now) }
        ensures most { result ≤ 24 }
    {
        self.len()
    }

    /// The account of the seat, or none where there is no such seat.
    pub fn account(&self, seat: u8) -> Option<Account>
        ensures { MatchOption result (outside seat (length (seated self.now)) ≡ true) (λ a. (outside seat (length (seated self.now)) ≡ false) × (a ≡ slice_index_or (seated self.now) (seat - 1) nobody)) }
    {
        let place = self.place_of(seat)?;
        Some(self.account_at(place))
    }

    /// What the seat is eligible for now, and 0 where there is no such seat.
    pub fn eligible(&self, seat: u8) -> u32
        ensures seat { 1 ≤ seat → result ≡ (get_or (seated self.now) (seat - 1) nobody).eligible }
        ensures none { seat ≡ 0 → result ≡ 0 }
    {
        self.account(seat).map_or(0, |account| account.eligible)
    }

    /// Adds a seat that has bought so much eligibility, unless there are 24.
    pub fn open_account(&mut self, bought: u32) -> Result<(), NoSeatLeft>
        ensures room { is_ok result ≡ nat_lt (length (seated self.old)) 24 }
        ensures after { seated self.new ≡ with_opened bought (seated self.old) }
    {
        if self.len() >= MOST_SEATS {
            return Err(NoSeatLeft);
        }
        self.append(SeatAccount::opened(bought));
        Ok(())
    }

    /// Cuts the eligibility of the seat, to nothing at most. Nothing changes where there is no such seat.
    pub fn cut(&mut self, seat: u8, by: u32)
        ensures { seated self.new ≡ with_cut seat by (seated self.old) }
    {
        if let Some(place) = self.place_of(seat) {
            self.cut_at(place, by);
        }
    }

    // How many rows are in use.
    fn len(&self) -> usize
        ensures seats { result ≡ length (seated self.now) }
        ensures rows { result ≡ self.now.count }
    {
        self.count
    }

    // The place of the seat's row, or none where there is no such seat.
    fn place_of(&self, seat: u8) -> Option<usize>
        ensures { MatchOption result (outside seat (length (seated self.now)) ≡ true) (λ place. (outside seat (length (seated self.now)) ≡ false) × (place ≡ seat - 1) × (place < self.now.count)) }
    {
        let place = usize::from(seat).checked_sub(1)?;
        (place < self.len()).then_some(place)
    }

    // The account of the row at the place.
    fn account_at(&self, place: usize) -> Account
        requires { place < self.now.count }
        ensures { result ≡ slice_index_or (seated self.now) place nobody }
    {
        self.rows[place].account
    }

    // Writes a row behind those in use.
    fn append(&mut self, row: SeatAccount)
        requires { self.old.count < 24 }
        ensures { seated self.new ≡ seated self.old ++ row.account ∷ [] }
    {
        self.rows[self.count] = row;
        self.count += 1;
    }

    // Cuts the account of the row at the place.
    fn cut_at(&mut self, place: usize, by: u32)
        requires { place < self.old.count }
        ensures { seated self.new ≡ slice_set (seated self.old) place (cut_by by (slice_index_or (seated self.old) place nobody)) }
    {
        cut_row(&mut self.rows, place, by);
    }
}

// Cuts the account of one row, which is lent to do so.
fn cut_row(rows: &mut [SeatAccount], place: usize, by: u32)
    requires { place < length rows.old }
    ensures { map plain_of rows.new ≡ slice_set (map plain_of rows.old) place (cut_by by (slice_index_or (map plain_of rows.old) place nobody)) }
{
    rows[place].cut(by);
}
