//! What faces are told of tokens: who hears of a token that comes or goes, and what interests and
//! asks are answered.
#![tactic(auto)]

mod answering;
mod forgetting;
mod ordering;
mod questions;
mod telling;
mod visibility;
mod walking;

pub use answering::{
    answer, answer_interest, answered_expressions, is_answered_by, prepare_answers,
};
pub use forgetting::forget;
pub use ordering::KeysInOrder;
pub use questions::{find_face, hat_of_face, is_routed, is_told, is_visible, shows, wants};
pub use telling::tell;
pub use visibility::visible_expressions;
pub use walking::{FaceRule, say_at, say_each};
