//! Tests of the texts: lines and fields, meshes, scenes, decimals, files in memory. A module is a layer.
//!
//! The tests are tables of cases, and call only what has no conditions on data.
#![tactic(auto)]

#[cfg(test)]
mod decimals;
#[cfg(test)]
mod faults;
#[cfg(test)]
mod lines;
#[cfg(test)]
mod logarithms;
#[cfg(test)]
mod meshes;
#[cfg(test)]
mod scenes;
#[cfg(test)]
mod shelves;
