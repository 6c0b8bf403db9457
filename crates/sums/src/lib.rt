//! Sums over the steps of a book, and tests over lists of numbers.
#![tactic(auto)]

mod above;
mod measure;
mod shares;
mod weight;

pub use above::{Number, first_above};
pub use measure::{Measure, sum_over};
pub use shares::{
    Losing, Standing, Won, WonBy, WonByIn, shares_losing, shares_standing, shares_won,
    shares_won_by, shares_won_by_in,
};
pub use weight::{StandingWeight, standing_weight};
