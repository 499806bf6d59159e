//! Elasticity of one tetrahedron: what it adds to the potential of a frame, to its gradient and to its matrix.
//!
//! The material is compressible neo-Hookean: for a deformation gradient F with determinant J its energy density is
//! `mu / 2 · (tr FᵀF − 3) − mu · ln J + lambda / 2 · (ln J)²`. All energies are taken 48 times.
//!
//! `rest`: what is kept of a tetrahedron at rest, `element`: with its material, ready for many calls. `strain`: how
//! it is strained. `energy`, `gradient`: these two. `block`: one block, `blocks`: all sixteen at once. `laws`:
//! shifts, rest, the sum of the pulls, symmetry.
#![tactic(auto)]

mod block;
mod blocks;
mod element;
mod energy;
mod gradient;
mod laws;
mod rest;
mod strain;

pub use block::elastic_block;
pub use element::Element;
pub use energy::elastic_energy;
pub use gradient::elastic_gradient;
pub use laws::{
    a_rigid_shift_changes_nothing, a_stretched_tetrahedron, blocks_are_symmetric,
    nothing_pulls_at_rest, pulls_are_balanced,
};
pub use rest::{RestTet, rest_tet};
