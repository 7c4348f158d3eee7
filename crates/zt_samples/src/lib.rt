//! What the subscribers of sessions are given, as messages to the sessions come: samples, by the
//! tokens that each session was told.
//!
//! A subscriber with history begins with the tokens that its session keeps, and is then given just
//! what changes these; one without history is given what its session is told from then on.
//! `specs/Samples.antt` says what each message gives and leaves.
#![tactic(auto)]

mod hearing;
mod samples;
mod taking;

pub use hearing::{begin, copy_told, hear};
pub use samples::{News, Sample, Subscriber, Told};
pub use taking::{drop_news, drop_news_of_session, drop_told, oldest_sample, take_sample};
