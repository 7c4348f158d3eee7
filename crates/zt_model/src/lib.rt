//! What a gateway is and says, as definitions alone: the meaning that the contracts of the other
//! crates cite.
#![tactic(auto)]
