//! One linear-address space: all that its tables map, found by a walk from the root down.
#![tactic(auto)]

mod building;
mod faults;
mod numbers;
mod partial;
mod patched;
mod planning;
mod plans;
mod ranges;
mod removal;
mod space;
mod updating;
mod walking;

pub use faults::SpaceFault;
pub use plans::Plan;
pub use space::Space;

#[cfg(test)]
mod tests;
