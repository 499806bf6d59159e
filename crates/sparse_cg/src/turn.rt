//! One turn.
ghost use Rattle.std.specs.Prelude.{◌≡◌, ◌↔◌, ◌≤◌, ◌*◌, pos, ◌<ℤ◌, IsTrue, length, map, sum, unsigned_abs};
ghost use Rattle.block_rows.specs.Stored.{nodes_of};
ghost use Rattle.sparse_cg.specs.Turns.{approached, curvature, renewed, start, turned};
ghost use Rattle.sparse_cg.specs.Calls.Lists.{AreShort};
ghost use Rattle.sparse_cg.specs.Calls.States.{HasRoom, IsState, IsTask, numbers_in, system_in};

use crate::lists::{
    dot, move_along, sum_of_sizes, write_copy, write_left_over, write_quotients, write_shortened,
    write_zeros,
};
use crate::numbers::ratio;
use crate::state::{State, Task};
use block_rows::Rows;
use num_q::Q;
use std::mem::swap;

impl State {
    // Begins a search.
    pub fn start(&mut self, rows: &Rows, task: &Task)
        requires task { IsTask (nodes_of rows.now) task.now }
        requires room { HasRoom (nodes_of rows.now) self.old }
        ensures value { numbers_in self.new ≡ start (system_in rows.now task.now) }
        ensures state { IsState (nodes_of rows.now) self.new }
    {
        write_zeros(&mut self.x);
        write_copy(&mut self.r, &task.target);
        write_quotients(&mut self.p, &task.target, &task.divisors, task.shift);
        self.rho = dot(&self.r, &self.p);
    }

    // The way times the matrix times the way.
    #[tactic(auto, using(crate::proofs::Applied::curvature_is))]
    pub fn curvature(&mut self, rows: &Rows, task: &Task) -> Q<0, 104>
        requires task { IsTask (nodes_of rows.now) task.now }
        requires state { IsState (nodes_of rows.now) self.old }
        ensures value { result.raw ≡
            curvature (system_in rows.now task.now) (numbers_in self.old) }
        ensures same { numbers_in self.new ≡ numbers_in self.old }
        ensures state { IsState (nodes_of rows.now) self.new }
    {
        rows.times(&self.p, &mut self.product);
        write_shortened(&mut self.scratch, &self.product, task.shift);
        dot(&self.p, &self.scratch)
    }

    // One turn.
    pub fn turn(&mut self, rows: &Rows, task: &Task, bend: Q<0, 104>)
        requires task { IsTask (nodes_of rows.now) task.now }
        requires state { IsState (nodes_of rows.now) self.old }
        requires bend { bend.raw ≡ curvature (system_in rows.now task.now) (numbers_in self.old) }
        requires bends { pos 0 <ℤ bend.raw }
        requires remains { pos 0 <ℤ self.old.rho.raw }
        ensures value { numbers_in self.new ≡
            turned (system_in rows.now task.now) (numbers_in self.old) }
        ensures state { IsState (nodes_of rows.now) self.new }
    {
        self.approach(rows, task, bend);
        self.renew(rows, task);
    }

    // A step along the way.
    #[tactic(auto, using(crate::proofs::Applied::residual_is))]
    fn approach(&mut self, rows: &Rows, task: &Task, bend: Q<0, 104>)
        requires task { IsTask (nodes_of rows.now) task.now }
        requires state { IsState (nodes_of rows.now) self.old }
        requires bend { bend.raw ≡ curvature (system_in rows.now task.now) (numbers_in self.old) }
        requires bends { pos 0 <ℤ bend.raw }
        ensures value { numbers_in self.new ≡
            approached (system_in rows.now task.now) (numbers_in self.old) }
        ensures state { IsState (nodes_of rows.now) self.new }
    {
        let share = ratio(self.rho, bend);
        move_along(&mut self.x, &self.p, share);
        rows.times(&self.x, &mut self.product);
        write_left_over(&mut self.r, &task.target, &self.product, task.shift);
    }

    // The next way.
    fn renew(&mut self, rows: &Rows, task: &Task)
        requires task { IsTask (nodes_of rows.now) task.now }
        requires state { IsState (nodes_of rows.now) self.old }
        requires remains { pos 0 <ℤ self.old.rho.raw }
        ensures value { numbers_in self.new ≡
            renewed (system_in rows.now task.now) (numbers_in self.old) }
        ensures state { IsState (nodes_of rows.now) self.new }
    {
        write_quotients(&mut self.scratch, &self.r, &task.divisors, task.shift);
        let rho = dot(&self.r, &self.scratch);
        let share = ratio(rho, self.rho);
        move_along(&mut self.scratch, &self.p, share);
        swap(&mut self.scratch, &mut self.p);
        self.rho = rho;
    }

    // The residual is at most a quarter of the right side.
    pub fn is_close(&self, task: &Task) -> bool
        requires few { length task.now.target.items ≤ 49152 }
        requires each { length self.now.r.items ≤ 49152 }
        requires target { AreShort task.now.target.items }
        requires residual { AreShort self.now.r.items }
        ensures { IsTrue result ↔ (4 * sum (map unsigned_abs self.now.r.items)
            ≤ sum (map unsigned_abs task.now.target.items)) }
    {
        4 * sum_of_sizes(&self.r) <= sum_of_sizes(&task.target)
    }
}
