//! Plans run through the machine: by drives, and label by label.

mod cases;
mod drives;
mod looks;
mod moves;
mod replays;
mod rules;
mod steps;
mod wants;
