pub mod access;
pub mod reading;

ghost use Rattle.std.specs.Prelude.{◌≡◌, true};
ghost use Rattle.machine.specs.Queries.{ends};
ghost use Rattle.machine.specs.Views.{places_of, lasts_of, names_of, complete, are_all_listed, decoded};

use crate::plan::Plan;

/// The queries of a text, by their positions: every step's name is listed, each query has its end,
/// and the last position of each query is known.
#[derive(Clone, Copy)]
pub struct Queries {
    plan: Plan,
    ghost whole: { complete (places_of plan) ≡ true },
    ghost known: { are_all_listed (names_of plan.names) (places_of plan) ≡ true },
    ghost ending: { lasts_of plan ≡ ends 0 (decoded (names_of plan.names) (places_of plan)) },
}
