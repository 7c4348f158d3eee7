//! Tests of the liveliness interface: rows of calls with their answers. No clause says that calls
//! succeed, nor what a row of them answers.
#![tactic(auto)]

#[cfg(test)]
mod asking;
#[cfg(test)]
mod rows;
