//! The search for a solution: turns until the residual is small.
ghost use Rattle.std.specs.Prelude.{IsFalse, IsTrue, List};
ghost use Rattle.block_rows.specs.Stored.{nodes_of};
ghost use Rattle.space3.specs.declared.vectors.V3.{V3 as Vector};
ghost use Rattle.sparse_cg.specs.Directions.{direction_of};
ghost use Rattle.sparse_cg.specs.Turns.{start};
ghost use Rattle.sparse_cg.specs.Calls.Ends.{Ends};
ghost use Rattle.sparse_cg.specs.Calls.States.{HasRoom, IsState, IsTask, system_in};

use crate::numbers::is_positive;
use crate::state::{State, Task};
use block_rows::Rows;

// Whether turns end in a solution, which is then that of the state.
pub(crate) fn search(state: &mut State, rows: &Rows, task: &Task) -> bool
    requires task { IsTask (nodes_of rows.now) task.now }
    requires room { HasRoom (nodes_of rows.now) state.old }
    ensures found { IsTrue result → Ends (system_in rows.now task.now) 200
        (start (system_in rows.now task.now)) (direction_of (nodes_of rows.now) state.new.x.items) }
    ensures none { IsFalse result → (direction : List Vector) →
        ¬ Ends (system_in rows.now task.now) 200 (start (system_in rows.now task.now)) direction }
    ensures state { IsState (nodes_of rows.now) state.new }
{
    state.start(rows, task);
    for _ in 0..200u32 {
        let bend = state.curvature(rows, task);
        if !is_positive(bend) {
            return false;
        }
        if !is_positive(state.rho) {
            return false;
        }
        state.turn(rows, task, bend);
        if state.is_close(task) {
            return true;
        }
    }
    false
}
