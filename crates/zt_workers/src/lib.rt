//! Scripts that many workers carry out on one gateway. The script of such a run makes one gateway,
//! then opens faces of it, and then lets faces speak: these lines are dealt to workers by the
//! numbers of their faces.
#![tactic(auto)]

mod answering;
mod carrying;
mod driving;
mod making;
mod printing;
mod program;

pub use answering::{Answer, all_refused, answer_journal, answer_makings};
pub use driving::{MOST_WORKERS, drive};
pub use making::make_faces;
pub use printing::print_all;
pub use program::{drive_tool, status};
pub use zt_dealing::{Gate, NoGate};
