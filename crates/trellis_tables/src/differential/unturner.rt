// The decoder of quarter turns.
ghost use Rattle.std.specs.Prelude.{◌≡◌, ℕ, ◌<◌, List, [], ◌∷◌, ◌++◌};
ghost use Rattle.trellis_tables.specs.Differential.Machines.{UnturnerStands};

use std::marker::Model;

/// The inverse of the [`Turner`](crate::Turner). It keeps the latest number.
#[derive(Drop)]
pub struct Unturner {
    /// The turn of the label before, 0 before the first.
    latest: u8,
}

impl Model for Unturner {
    ghost use Rattle.std.specs.Prelude.{ℕ, ◌<◌};

    ghost Value = { ℕ };

    ghost view = { λ u. u.latest };

    ghost invariant = { λ u. u.latest < 4 };
}

impl Unturner {
    /// An unturner before its first number, at 0.
    pub fn new() -> Unturner
        ensures { UnturnerStands result [] [] }
    {
        Unturner { latest: 0 }
    }

    /// How many quarter turns this number is past the one before it.
    pub fn decode(&mut self, y: u8) -> u8
        requires { y < 4 }
        ensures stands { (sent turns : List ℕ) → UnturnerStands self.old sent turns
            → UnturnerStands self.new (sent ++ y ∷ []) (turns ++ result ∷ []) }
        ensures below { result < 4 }
    {
        let turns = (y + 4 - self.latest) % 4;
        self.latest = y;
        turns
    }
}
