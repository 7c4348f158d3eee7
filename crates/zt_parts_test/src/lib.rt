//! Tests of keys, regions, streams and lines, over what their crates show others: that calls
//! succeed, and tables of texts with their answers. No clause says these.
#![tactic(auto)]

#[cfg(test)]
mod errors;
#[cfg(test)]
mod keys;
#[cfg(test)]
mod lines;
#[cfg(test)]
mod regions;
#[cfg(test)]
mod streams;
