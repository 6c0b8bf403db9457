//! Tests of the sale: each refusal at its edge, over two kinds of book and three sheets; and its stages.
#![tactic(auto)]

#[cfg(test)]
mod refusals;
#[cfg(test)]
mod sheet;
#[cfg(test)]
mod stage;
