//! Laws that follow from the definitions, each the contract of a function that does nothing.

pub use crate::laws::directories::{
    absent_are_forgotten, answers_are_determined, blocks_hold, cooldown_lasts,
    dialable_are_granted, dialable_is_quiet, each_call_keeps_others, effects_keep_others,
    effects_refine, grants_are_spaced, order_is_free, others_may_be_left_out, presence_is_bounded,
    recomputed_is_one_step, refined_answers,
};
pub use crate::laws::gossip::{
    exchanges_are_carried, frames_are_an_exchange, gossip_of_a_network, infos_may_come_late,
    nodes_are_a_network,
};
pub use crate::laws::runs::laws_of_a_run;
pub use crate::laws::steps::{
    busy_is_one_step, full_questions_bring_all, granted_are_connected, infos_leave_moments,
};
pub use crate::laws::verdicts::{judged_by, verdicts_suffice};

mod directories;
mod gossip;
mod runs;
mod steps;
mod verdicts;
