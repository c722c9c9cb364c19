// Numbers drawn one after another.
ghost use Rattle.std.specs.Prelude.{◌≡◌, ◌/◌, ◌^◌};
ghost use Rattle.tree_maker.specs.Draws.{next};

use std::marker::Model;

/// The factor of a draw (docs/FORMATS.md, "The tree of a number").
const FACTOR: u64 = 6364136223846793005;

/// What a draw adds (docs/FORMATS.md, "The tree of a number").
const ADDED: u64 = 1442695040888963407;

/// By which a state is divided for what its draw gives: 2 to the power of 33.
const DIVISOR: u64 = 8589934592;

/// The state of draws, which contracts see as a number.
#[derive(Debug, Drop)]
pub(crate) struct Draws {
    state: u64,
}

impl Model for Draws {
    ghost use Rattle.std.specs.Prelude.{ℕ};

    ghost Value = { ℕ };

    ghost view = { λ draws. draws.state };
}

/// The state behind another.
#[tactic(auto, unfolding(crate::specs::Draws::next))]
fn next(state: u64) -> u64
    ensures { result ≡ next state }
{
    state.wrapping_mul(FACTOR).wrapping_add(ADDED)
}

impl Draws {
    /// Draws that begin with a number.
    pub(crate) fn from_number(number: u64) -> Draws
        ensures { result ≡ number }
    {
        Draws { state: number }
    }

    /// The next number.
    pub(crate) fn draw(&mut self) -> u64
        ensures state { self.new ≡ next self.old }
        ensures number { result ≡ next self.old / 2 ^ 33 }
    {
        self.state = next(self.state);
        self.state / DIVISOR
    }
}
