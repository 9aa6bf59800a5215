//! A rocket in orbit: what is called of its fairings at liftoff and at a shutdown.
mod act;
mod actor;
mod answer;
mod rocket;
mod shown;

pub use crate::orbit::answer::orbit_answer;
pub use crate::orbit::rocket::Orbit;
