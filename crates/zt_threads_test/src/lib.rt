//! Tests of scripts that many workers carry out on one gateway: that runs succeed, that workers
//! work at the same time, what a monitor beside another pass is told, and how the polls of a monitor
//! beside workers are printed. No
//! clause says the first two.
#![tactic(auto)]

#[cfg(test)]
mod driven;
#[cfg(test)]
mod presence;
#[cfg(test)]
mod printed;
#[cfg(test)]
mod sharing;
#[cfg(test)]
mod watched;
