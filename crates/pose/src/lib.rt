// Poses of a robot arm: four joint angles in single precision, their bits, and angles of whole degrees.
#![tactic(auto)]

mod degrees;
mod poses;

pub use degrees::{bits_to_degrees, from_degrees, whole_degrees};
pub use poses::{NotANumber, Pose, PoseBits};

#[cfg(test)]
mod tests;
