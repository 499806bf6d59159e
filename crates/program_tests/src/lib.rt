//! Tests of the whole program over files and console in memory: what no clause says, that a command ends well where there
//! is memory. Worked cases, a fault at each call in turn, files without end, and memory that is wanting.
#![tactic(auto)]

#[cfg(test)]
mod cases;
#[cfg(test)]
mod desk;
#[cfg(test)]
mod endless;
#[cfg(test)]
mod faults;
#[cfg(test)]
mod motions;
#[cfg(test)]
mod start;
#[cfg(test)]
mod surfaces;
#[cfg(test)]
mod traces;
#[cfg(test)]
mod transcript;
