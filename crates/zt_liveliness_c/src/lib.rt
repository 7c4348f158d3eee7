//! The engine for programs in C and for all that can call C: a script in memory and its transcript
//! in memory, and calls on an engine that a handle holds. A call that takes a handle takes the
//! engine out, makes its call of `zt_engine`, and puts it back.
#![tactic(auto)]

mod declaring;
mod opening;
mod running;
mod streams;
mod taking;

pub use declaring::{
    zl_liveliness_declare_subscriber, zl_liveliness_declare_token, zl_liveliness_get,
    zl_liveliness_undeclare_token, zl_undeclare_subscriber,
};
pub use opening::{zl_close, zl_expire, zl_face_close, zl_open, zl_session_open, zl_uplink_open};
pub use running::zl_run;
pub use taking::{zl_reply_try_recv, zl_sample_try_recv, zl_uplink_receive, zl_uplink_send};
