//! The evaluation of trees over any keepers of nodes and names: steps run, and their commands are carried out.
#![tactic(auto)]

mod acting;
mod ending;
mod evaluator;
mod ground;
mod keepers;
mod landing;

pub use acting::run_step;
pub use evaluator::Evaluator;
pub use ground::Ground;
pub use keepers::Keepers;
