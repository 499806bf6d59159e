//! Newton's direction and Jacobi's.
ghost use Rattle.std.specs.Prelude.{◌≡◌, ◌*◌, ◌^◌, IsTrue, List, length, All};
ghost use Rattle.space3.specs.Vectors.{AtMost};
ghost use Rattle.space3.specs.declared.vectors.V3.{V3 as Vector};
ghost use Rattle.block_rows.specs.Stored.{nodes_of, table_of};
ghost use Rattle.sparse_cg.specs.Directions.{IsNewton};
ghost use Rattle.sparse_cg.specs.Jacobi.{jacobi};

use crate::directions::{write_direction, write_jacobi};
use crate::scale::prepare;
use crate::search::search;
use crate::work::Work;
use block_rows::Rows;

/// Whether there is a Newton direction of a matrix and a gradient, by conjugate gradients with the diagonal as
/// preconditioner (a textbook method, here in whole numbers); where there is, it stands in `work.dir()`
/// afterwards. The gradient has three numbers for each node, each at most 2^124 in absolute value. Takes no memory.
pub fn newton(rows: &Rows, g: &[i128], work: &mut Work) -> bool
    requires nodes { length work.old ≡ nodes_of rows.now }
    requires each { length g.now ≡ 3 * nodes_of rows.now }
    requires small { All (AtMost (2 ^ 124)) g.now }
    ensures found { IsTrue result →
        IsNewton (nodes_of rows.now) (table_of rows.now) g.now work.new }
    ensures only { (direction : List Vector) →
        IsNewton (nodes_of rows.now) (table_of rows.now) g.now direction →
        IsTrue result × (direction ≡ work.new) }
    ensures nodes { length work.new ≡ length work.old }
{
    prepare(&mut work.task, rows, g);
    if !search(&mut work.state, rows, &work.task) {
        return false;
    }
    write_direction(&mut work.dir, &work.state.x);
    true
}

/// Leaves Jacobi's direction of a matrix and a gradient in `work.dir()`. The gradient has three numbers for each node,
/// each at most 2^124 in absolute value. Takes no memory.
pub fn jacobi(rows: &Rows, g: &[i128], work: &mut Work)
    requires nodes { length work.old ≡ nodes_of rows.now }
    requires each { length g.now ≡ 3 * nodes_of rows.now }
    requires small { All (AtMost (2 ^ 124)) g.now }
    ensures { work.new ≡ jacobi (nodes_of rows.now) (table_of rows.now) g.now }
{
    write_jacobi(&mut work.dir, rows, g);
}
