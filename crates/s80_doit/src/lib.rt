//! DoIts: compiled, run among the classes and their methods, and answered; with the laws that their code suits the machine.
#![tactic(auto)]

mod answers;
mod code;
mod evaluation;
mod suits;

pub use answers::{
    a_doit_answers_one_small, a_doit_is_told_one_thing, runs_answer_the_smalls_of_trees,
    runs_are_evaluations,
};
pub use evaluation::{answer, compile, evaluate, is_stopped, small_answer};
pub use suits::{doit_code_suits, method_code_suits};
