//! A list of pairs.
ghost use Rattle.std.specs.Prelude.{◌≡◌};

use boundary::Pair;
use std::marker::Model;

/// Pairs of a surface's parts, in order.
#[derive(Drop)]
pub struct PairList {
    list: Vec<Pair>,
}

impl Model for PairList {
    ghost use Rattle.std.specs.Prelude.{List};
    ghost use Rattle.boundary.specs.declared.pairs.Pair.{Pair};

    ghost Value = { List Pair };

    ghost view = { λ p. p.list.items };
}

impl PairList {
    /// The list of these pairs.
    pub fn of_vec(items: Vec<Pair>) -> Self
        ensures { result ≡ items.items }
    {
        PairList { list: items }
    }

    /// The pairs, in order.
    pub fn items(&self) -> &[Pair]
        ensures { result.now ≡ self.now }
    {
        self.list.as_slice()
    }
}
