//! Tests of the books: the same cases on both, and code over any book, which leans on nothing but its size and its steps.
#![tactic(auto)]

#[cfg(test)]
mod callers;
#[cfg(test)]
mod tests;
