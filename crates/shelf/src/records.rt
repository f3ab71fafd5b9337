// What the shelf itself keeps of a model.
ghost use Rattle.std.specs.Prelude.{◌≤◌};

use models::tables::Sets;

/// What is kept of a model beside its symbols and followers: how many positions it has, and its sets.
#[derive(Clone, Copy)]
pub struct Summary {
    pub count: usize,
    pub sets: Sets,
    // The positions have cells in the place's stretch.
    ghost fits: { count ≤ 64 },
}
