//! The matrix of a frame: the sums of the blocks of all contributions.
ghost use Rattle.std.specs.Prelude.{◌≡◌, ◌+◌, ◌*◌, ◌≤◌, ◌++◌, IfOk, All, map, length, pos};
ghost use Rattle.whole_laws.specs.Ranges.{IsFrom};
ghost use Rattle.surface_mesh.specs.declared.sturdy.TheConstants.{MOST_MASS};
ghost use Rattle.block_rows.specs.declared.sums.TheConstants.{MOST_ADDED};
ghost use Rattle.block_rows.specs.Stored.{nodes_of, table_of};
ghost use Rattle.block_rows.specs.Tables.{free_table};
ghost use Rattle.potential_sum.specs.declared.contacts.TheConstants.{MOST_CLOSE};
ghost use Rattle.friction_lag.specs.Lagged.{lagged_in};
ghost use Rattle.surface_mesh.specs.Materials.{AreNumbers};
ghost use Rattle.potential_sum.specs.Calls.Barriers.{IsClosePair, MayPush, barrier_at, parts_in};
ghost use Rattle.potential_sum.specs.Calls.Friction.{MaySlide, friction_at};
ghost use Rattle.potential_sum.specs.Calls.Kept.{MayStand, elastic_in};
ghost use Rattle.potential_sum.specs.Calls.Stiffness.{HaveMore, inertia_table, stiffness_of, stiffness_of_one, sum_of_tables};
ghost use Rattle.potential_sum.specs.Contributions.{barrier_contribution, elastic_contribution};

use crate::barriers::{TwoParts, parts_of};
use crate::blocks::add_blocks;
use crate::bodies::Body;
use crate::friction::blocks_of;
use block_rows::Sums;
use boundary::Pair;
use broad_grid::are_held;
use friction_lag::Contact;
use inertia_term::inertia_block;
use space3::Places;
use std::alloc::{AllocError, Global};
use surface_mesh::{Numbers, Setup};

// The sums of the blocks of all contributions at free nodes.
pub(crate) fn block_sums(
    alloc: Global,
    setup: &Setup,
    bodies: &[Body],
    pairs: &[Pair],
    contacts: &[Contact],
    x: &Places,
) -> Result<Sums, AllocError>
    requires each_mass { length setup.now.mass ≡ length x.now }
    requires each_flag { length setup.now.fixed ≡ length x.now }
    requires masses { All (IsFrom (pos 0) MOST_MASS) setup.now.mass }
    requires numbers { AreNumbers setup.now.numbers }
    requires few_nodes { length x.now ≤ 16384 }
    requires few_bodies { length bodies.now ≤ 65536 }
    requires few_pairs { length pairs.now ≤ MOST_CLOSE }
    requires few_contacts { length contacts.now ≤ MOST_CLOSE }
    requires stand { All (λ body. MayStand x.now (elastic_in body)) bodies.now }
    requires close { All (IsClosePair setup.now x.now) pairs.now }
    requires slide { All (λ contact. MaySlide x.now (lagged_in contact)) contacts.now }
    ensures fixed { IfOk result (λ made. made.fixed ≡ setup.now.fixed) }
    ensures nodes { IfOk result (λ made. nodes_of made.rows ≡ length x.now) }
    ensures table { IfOk result (λ made. free_table setup.now.fixed (table_of made.rows) ≡
        free_table setup.now.fixed
        (sum_of_tables (inertia_table setup.now.mass (length x.now)) (stiffness_of
        (map (λ body. elastic_contribution x.now (elastic_in body)) bodies.now
        ++ map (barrier_at setup.now x.now) pairs.now
        ++ map (friction_at setup.now.numbers x.now) contacts.now)))) }
{
    let mut sums = Sums::open(alloc, setup.fixed.items())?;
    add_inertia_blocks(&mut sums, setup.mass.items())?;
    add_elastic_blocks(&mut sums, bodies, x)?;
    add_barrier_blocks(&mut sums, setup, x, pairs)?;
    add_friction_blocks(&mut sums, &setup.numbers, x, contacts)?;
    Ok(sums)
}

// Adds what inertia gives between each node and itself.
fn add_inertia_blocks(sums: &mut Sums, masses: &[i128]) -> Result<(), AllocError>
    requires each { nodes_of sums.old.rows ≡ length masses.now }
    requires few { length masses.now ≤ 16384 }
    requires masses { All (IsFrom (pos 0) MOST_MASS) masses.now }
    requires room { sums.old.added + length masses.now ≤ MOST_ADDED }
    ensures { IfOk result (λ _. HaveMore (inertia_table masses.now (length masses.now))
        (length masses.now) sums.old sums.new) }
{
    for node in 0..masses.len() {
        let block = inertia_block(masses[node]);
        sums.add(node as u32, node as u32, &block)?;
    }
    Ok(())
}

// Adds what elasticity gives between the nodes of each tetrahedron.
fn add_elastic_blocks(sums: &mut Sums, bodies: &[Body], x: &Places) -> Result<(), AllocError>
    requires each { nodes_of sums.old.rows ≡ length x.now }
    requires stand { All (λ body. MayStand x.now (elastic_in body)) bodies.now }
    requires room { sums.old.added + 16 * length bodies.now ≤ MOST_ADDED }
    ensures { IfOk result (λ _.
        HaveMore (stiffness_of (map (λ body. elastic_contribution x.now (elastic_in body)) bodies.now))
        (16 * length bodies.now) sums.old sums.new) }
{
    for body in bodies {
        add_body_blocks(sums, body, x)?;
    }
    Ok(())
}

// Adds what elasticity gives between the nodes of a tetrahedron.
fn add_body_blocks(sums: &mut Sums, body: &Body, x: &Places) -> Result<(), AllocError>
    requires each { nodes_of sums.old.rows ≡ length x.now }
    requires stand { MayStand x.now (elastic_in body.now) }
    requires room { sums.old.added + 16 ≤ MOST_ADDED }
    ensures { IfOk result (λ _. HaveMore (stiffness_of_one
        (elastic_contribution x.now (elastic_in body.now))) 16 sums.old sums.new) }
{
    add_blocks(sums, &body.nodes, &body.blocks(x))
}

// Adds what barriers give between the nodes of each pair.
fn add_barrier_blocks(
    sums: &mut Sums,
    setup: &Setup,
    x: &Places,
    pairs: &[Pair],
) -> Result<(), AllocError>
    requires each { nodes_of sums.old.rows ≡ length x.now }
    requires numbers { AreNumbers setup.now.numbers }
    requires close { All (IsClosePair setup.now x.now) pairs.now }
    requires room { sums.old.added + 16 * length pairs.now ≤ MOST_ADDED }
    ensures { IfOk result (λ _. HaveMore (stiffness_of (map (barrier_at setup.now x.now) pairs.now))
        (16 * length pairs.now) sums.old sums.new) }
{
    for pair in pairs {
        let parts = parts_of(&setup.surface, *pair);
        add_pair_blocks(sums, &setup.numbers, x, &parts)?;
    }
    Ok(())
}

// Adds what the barrier gives between the nodes of two parts.
fn add_pair_blocks(
    sums: &mut Sums,
    numbers: &Numbers,
    x: &Places,
    parts: &TwoParts,
) -> Result<(), AllocError>
    requires each { nodes_of sums.old.rows ≡ length x.now }
    requires numbers { AreNumbers numbers.now }
    requires close { MayPush x.now (parts_in parts.now) }
    requires room { sums.old.added + 16 ≤ MOST_ADDED }
    ensures { IfOk result (λ _. HaveMore (stiffness_of_one
        (barrier_contribution numbers.now x.now (parts_in parts.now))) 16 sums.old sums.new) }
{
    match parts.blocks(numbers, x) {
        Some(blocks) => add_blocks(sums, &parts.nodes, &blocks),
        None => Ok(()),
    }
}

// Adds what friction gives between the nodes of each contact.
fn add_friction_blocks(
    sums: &mut Sums,
    numbers: &Numbers,
    x: &Places,
    contacts: &[Contact],
) -> Result<(), AllocError>
    requires each { nodes_of sums.old.rows ≡ length x.now }
    requires numbers { AreNumbers numbers.now }
    requires slide { All (λ contact. MaySlide x.now (lagged_in contact)) contacts.now }
    requires room { sums.old.added + 16 * length contacts.now ≤ MOST_ADDED }
    ensures { IfOk result (λ _. HaveMore (stiffness_of (map (friction_at numbers.now x.now) contacts.now))
        (16 * length contacts.now) sums.old sums.new) }
{
    for contact in contacts {
        add_contact_blocks(sums, numbers, x, contact)?;
    }
    Ok(())
}

// Adds what friction gives between the nodes of a contact.
fn add_contact_blocks(
    sums: &mut Sums,
    numbers: &Numbers,
    x: &Places,
    contact: &Contact,
) -> Result<(), AllocError>
    requires each { nodes_of sums.old.rows ≡ length x.now }
    requires numbers { AreNumbers numbers.now }
    requires slide { MaySlide x.now (lagged_in contact.now) }
    requires room { sums.old.added + 16 ≤ MOST_ADDED }
    ensures { IfOk result (λ _. HaveMore (stiffness_of_one
        (friction_at numbers.now x.now contact.now)) 16 sums.old sums.new) }
{
    if are_held(sums.fixed(), &contact.nodes) {
        return Ok(());
    }
    add_blocks(sums, &contact.nodes, &blocks_of(contact, numbers, x))
}
