//! The energy of inertia at a node, its gradient and its block.
ghost use Rattle.std.specs.Prelude.{◌≡◌, pos, ◌-ℤ◌, ◌*ℤ◌};
ghost use Rattle.num_q.specs.Rounding.{cut_of, floor_of};
ghost use Rattle.space3.specs.declared.places.TheConstants.{BOX_LIMIT};
ghost use Rattle.space3.specs.Vectors.{AtMost, Within, dot_product, vector};
ghost use Rattle.surface_mesh.specs.declared.sturdy.TheConstants.{MOST_MASS};
ghost use Rattle.vec_q.specs.Raws.{raws};
ghost use Rattle.vec_q.specs.Rows.{components, rows_of};
ghost use Rattle.whole_laws.specs.Ranges.{IsFrom};
ghost use Rattle.inertia_term.specs.declared.target.TheConstants.{FARTHEST_TARGET};
ghost use Rattle.inertia_term.specs.Inertia.{offset_of, inertia_energy, inertia_pull, inertia_gradient, inertia_block};

use num_q::Q;
use space3::V3;
use vec_q::VecQ;

/// What inertia adds to the potential at a node that stands at `x`, in grid units, and has this target, in 1/256 grid
/// unit: mass times the squared distance, in squared grid units, rounded down.
///
/// A mass is from 0 to 2^58. This is the first term of the incremental potential of the IPC paper, times 48.
pub fn inertia_energy(mass: i128, x: V3, target: V3) -> i128
    requires mass { IsFrom (pos 0) MOST_MASS mass }
    requires place { Within BOX_LIMIT x }
    requires target { Within FARTHEST_TARGET target }
    ensures { result ≡ inertia_energy mass x target }
{
    energy_of(mass_number(mass), offset_of(x, target)).raw()
}

/// The gradient of that energy: twice the mass times the distance, in grid units, rounded down.
pub fn inertia_gradient(mass: i128, x: V3, target: V3) -> [i128; 3]
    requires mass { IsFrom (pos 0) MOST_MASS mass }
    requires place { Within BOX_LIMIT x }
    requires target { Within FARTHEST_TARGET target }
    ensures { result ≡ components (inertia_gradient mass x target) }
{
    pulls_of(mass_number(mass), offset_of(x, target)).components()
}

/// What inertia adds to the matrix at a node, by rows: twice the mass on the diagonal.
pub fn inertia_block(mass: i128) -> [[i128; 3]; 3]
    requires { IsFrom (pos 0) MOST_MASS mass }
    ensures { result ≡ rows_of (inertia_block mass) }
{
    let twice = twice_cut(mass_number(mass));
    [[twice, 0, 0], [0, twice, 0], [0, 0, twice]]
}

// How far a place is from a target, in grid units.
fn offset_of(place: V3, target: V3) -> VecQ<8, 31>
    requires place { Within BOX_LIMIT place }
    requires target { Within FARTHEST_TARGET target }
    ensures { raws result ≡ offset_of place target }
{
    VecQ {
        x: offset_along(place.x, target.x),
        y: offset_along(place.y, target.y),
        z: offset_along(place.z, target.z),
    }
}

// A component of an offset.
fn offset_along(place: i64, target: i64) -> Q<8, 31>
    requires place { AtMost BOX_LIMIT place }
    requires target { AtMost FARTHEST_TARGET target }
    ensures { result.raw ≡ pos 256 *ℤ place -ℤ target }
{
    Q::of_raw((256 * place - target) as i128)
}

// A mass as a number with no fraction bits.
fn mass_number(mass: i128) -> Q<0, 59>
    requires { IsFrom (pos 0) MOST_MASS mass }
    ensures { result.raw ≡ mass }
{
    Q::of_raw(mass)
}

// Mass times a squared offset.
fn energy_of(mass: Q<0, 59>, offset: VecQ<8, 31>) -> Q<0, 90>
    ensures { result.raw ≡
        cut_of 90 (floor_of (mass.raw *ℤ dot_product (raws offset) (raws offset)) (pos 65536)) }
{
    let square: Q<16, 64> = offset.dot_into(offset);
    let exact: Q<16, 123> = mass.mul_into(square);
    let whole: Q<0, 123> = exact.rescale_into();
    whole.cut_into()
}

// Twice the mass times an offset, component by component.
fn pulls_of(mass: Q<0, 59>, offset: VecQ<8, 31>) -> VecQ<0, 90>
    ensures { raws result ≡ vector (inertia_pull mass.raw offset.x.raw)
        (inertia_pull mass.raw offset.y.raw) (inertia_pull mass.raw offset.z.raw) }
{
    VecQ {
        x: inertia_pull(mass, offset.x),
        y: inertia_pull(mass, offset.y),
        z: inertia_pull(mass, offset.z),
    }
}

// Twice the mass times a component of an offset. Twice a length in 1/256 grid unit has 7 fraction bits.
fn inertia_pull(mass: Q<0, 59>, offset: Q<8, 31>) -> Q<0, 90>
    ensures { result.raw ≡ inertia_pull mass.raw offset.raw }
{
    let exact: Q<8, 90> = mass.mul_into(offset);
    exact.shifted_into::<7, 0, 90>().cut_into()
}

// Twice a mass, cut to 86 bits.
fn twice_cut(mass: Q<0, 59>) -> i128
    ensures { result ≡ cut_of 86 (pos 2 *ℤ mass.raw) }
{
    let two: Q<0, 2> = Q::of_raw(2);
    let twice: Q<0, 61> = two.mul_into(mass);
    twice.cut_into::<86>().raw()
}
