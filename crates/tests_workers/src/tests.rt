//! Plans run by workers.

mod cases;
mod counts;
mod crowds;
mod early;
mod light;
mod meets;
mod runs;
mod wants;
