//! The rules of a sale as definitions, and what is proved of every run of it. What a reader must believe stands in specs/.
#![tactic(auto)]

ghost use Rattle.rules.specs.Accepted.{RunsAccounted};
ghost use Rattle.rules.specs.Cases.{WorkedCases};
ghost use Rattle.rules.specs.DownRank.{RunsDownTheRank};
ghost use Rattle.rules.specs.Edges.{EdgesHold};
ghost use Rattle.rules.specs.Fair.{RunsAreFair};
ghost use Rattle.rules.specs.Rounds.{RoundsBounded};
ghost use Rattle.rules.specs.WorkedSales.{WorkedSales};

mod account;
mod answer;
mod fault;

pub use account::Account;
pub use answer::Answer;
pub use fault::SaleFault;

/// Carries the theorem over every run as its contract: that it is fair, and besides that lots go down the rank, that accepted shares are accounted for, and how many rounds there can be.
pub fn runs_are_fair()
    ensures fair { RunsAreFair }
    ensures down_the_rank { RunsDownTheRank }
    ensures accounted { RunsAccounted }
    ensures bounded { RoundsBounded }
{}

/// Carries the worked cases, proved together, as its contract, with whole sales and each limit at its edge.
pub fn cases_hold()
    ensures cases { WorkedCases }
    ensures sales { WorkedSales }
    ensures edges { EdgesHold }
{}
