//! What a frame keeps of its contacts.
ghost use Rattle.friction_lag.specs.Contacts.{IsContact};

use space3::V3;

/// What a frame keeps of a pair that is in contact as it begins: its nodes, its weights with 16 fraction bits, those
/// of the second part negated, its places in grid units, the force across the contact, and the unit vector along it
/// with 16 fraction bits. The weights above 0 add up to 1 and those below 0 to −1; the force is from 0 to below 2^60.
#[derive(Clone, Copy)]
pub struct Contact {
    pub nodes: [u32; 4],
    pub signed: [i64; 4],
    pub from: [V3; 4],
    pub force: i128,
    pub normal: [i64; 3],
    pub ghost contact: { IsContact signed from force normal },
}
