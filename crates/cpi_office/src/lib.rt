//! The office: what each caller sees, is answered and changes.
#![tactic(auto)]

mod answers;
mod assign;
mod calendar;
mod caller;
mod callers;
mod cause;
mod collectors;
mod edition;
mod examples;
mod formula_examples;
mod freeze;
mod freeze_examples;
mod handover;
mod handover_examples;
mod items;
mod laws;
mod months;
mod office;
mod outlets;
mod plan_examples;
mod plans;
mod quotes;
mod refusal;
mod reply;
mod request;
mod run;
mod sight;
mod standing;
mod submit;
mod tables;
mod work;

pub use caller::Caller;
pub use cause::Cause;
pub use edition::Edition;
pub use examples::worked_runs;
pub use formula_examples::worked_formulas;
pub use freeze_examples::worked_freezes;
pub use handover_examples::worked_handovers;
pub use laws::{
    causes_are_all, changes_are_enough, empty_is_sound, main_theorem, replies_are_alike,
    runs_tell_alike, tables_are_computed,
};
pub use office::Office;
pub use plan_examples::worked_plans;
pub use refusal::Refusal;
pub use reply::Reply;
pub use request::{Ask, HandOver, NewAssignment, Request};
