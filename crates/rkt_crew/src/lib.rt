//! A crew: one job, done from any number of posts over one turn lock, each on a thread of its own where one can be made.
#![tactic(auto)]

mod crew;
mod each;
mod job;
mod post;

pub use crew::work_in_threads;
pub use job::Job;
pub use post::Post;
