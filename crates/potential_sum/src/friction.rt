//! The friction of contacts.
ghost use Rattle.std.specs.Prelude.{◌≡◌, ◌≤◌, ◌<◌, ◌^◌, All, map, length};
ghost use Rattle.list_laws.specs.Sums.{total};
ghost use Rattle.space3.specs.Box.{IsInTheBox};
ghost use Rattle.space3.specs.Vectors.{AtMost};
ghost use Rattle.vec_q.specs.Rows.{components};
ghost use Rattle.friction_lag.specs.Friction.{friction_block};
ghost use Rattle.friction_lag.specs.Lagged.{lagged_in};
ghost use Rattle.surface_mesh.specs.Materials.{AreNumbers};
ghost use Rattle.potential_sum.specs.declared.contacts.TheConstants.{MOST_CLOSE};
ghost use Rattle.potential_sum.specs.Calls.Friction.{MaySlide, friction_at};
ghost use Rattle.potential_sum.specs.Calls.Stiffness.{sixteen_of};
ghost use Rattle.potential_sum.specs.Calls.Sums.{AreLight, pulls_of, with_parts};

use crate::blocks::Block;
use crate::bodies::corners_at;
use crate::pulls::{Pull, add_pulls, pull_at};
use friction_lag::{Contact, friction_blocks, friction_energy, friction_gradient};
use space3::{Places, V3, W3};
use surface_mesh::Numbers;

// The energies of friction of these contacts.
pub(crate) fn friction_energy_of(numbers: &Numbers, contacts: &[Contact], x: &Places) -> i128
    requires numbers { AreNumbers numbers.now }
    requires slide { All (λ contact. MaySlide x.now (lagged_in contact)) contacts.now }
    requires few { length contacts.now ≤ MOST_CLOSE }
    ensures value { result ≡
        total (map (λ contact. (friction_at numbers.now x.now contact).energy) contacts.now) }
    ensures small { AtMost (2 ^ 123) result }
{
    let mut sum = 0;
    for contact in contacts {
        sum += energy_of(contact, numbers, x);
    }
    sum
}

// The energy of friction of a contact.
fn energy_of(contact: &Contact, numbers: &Numbers, x: &Places) -> i128
    requires numbers { AreNumbers numbers.now }
    requires slide { MaySlide x.now (lagged_in contact.now) }
    ensures { result ≡ (friction_at numbers.now x.now contact.now).energy }
{
    let corners = corners_at(x, &contact.nodes);
    friction_energy(contact, numbers.friction, numbers.slip, &corners)
}

// Adds what the friction of these contacts gives at each node.
pub(crate) fn add_friction_pulls(
    sums: &mut [W3],
    numbers: &Numbers,
    contacts: &[Contact],
    x: &Places,
)
    requires nodes { length sums.old ≡ length x.now }
    requires numbers { AreNumbers numbers.now }
    requires slide { All (λ contact. MaySlide x.now (lagged_in contact)) contacts.now }
    requires few { length contacts.now ≤ MOST_CLOSE }
    requires light { AreLight (2 ^ 125) sums.old }
    ensures { sums.new ≡ with_parts sums.old
        (map (friction_at numbers.now x.now) contacts.now) }
{
    for contact in contacts {
        add_pulls(sums, &pulls_of(contact, numbers, x));
    }
}

// What pulls at the four nodes.
fn pulls_of(contact: &Contact, numbers: &Numbers, x: &Places) -> [Pull; 4]
    requires numbers { AreNumbers numbers.now }
    requires slide { MaySlide x.now (lagged_in contact.now) }
    ensures { result ≡ pulls_of (friction_at numbers.now x.now contact.now) }
{
    let corners = corners_at(x, &contact.nodes);
    let pulls = friction_gradient(contact, numbers.friction, numbers.slip, &corners);
    [
        pull_at(contact.nodes[0], pulls[0]),
        pull_at(contact.nodes[1], pulls[1]),
        pull_at(contact.nodes[2], pulls[2]),
        pull_at(contact.nodes[3], pulls[3]),
    ]
}

// The blocks of the four nodes of a contact.
pub(crate) fn blocks_of(contact: &Contact, numbers: &Numbers, x: &Places) -> [[Block; 4]; 4]
    requires numbers { AreNumbers numbers.now }
    requires slide { MaySlide x.now (lagged_in contact.now) }
    ensures { result ≡ sixteen_of (friction_at numbers.now x.now contact.now) }
{
    let corners = corners_at(x, &contact.nodes);
    friction_blocks(contact, numbers.friction, numbers.slip, &corners)
}
