// The coder of quarter turns.
ghost use Rattle.std.specs.Prelude.{◌≡◌, ℕ, ◌<◌, List, [], ◌∷◌, ◌++◌};
ghost use Rattle.trellis_tables.specs.Differential.Machines.{TurnerStands};

use std::marker::Model;

/// Adds up quarter turns. It keeps the sum modulo 4.
#[derive(Drop)]
pub struct Turner {
    /// The sum of all quarter turns so far, modulo 4.
    latest: u8,
}

impl Model for Turner {
    ghost use Rattle.std.specs.Prelude.{ℕ, ◌<◌};

    ghost Value = { ℕ };

    ghost view = { λ t. t.latest };

    ghost invariant = { λ t. t.latest < 4 };
}

impl Turner {
    /// A turner before its first turn, at 0.
    pub fn new() -> Turner
        ensures { TurnerStands result [] [] }
    {
        Turner { latest: 0 }
    }

    /// The sum of all turns up to this one, modulo 4.
    pub fn encode(&mut self, q: u8) -> u8
        requires { q < 4 }
        ensures stands { (turns sent : List ℕ) → TurnerStands self.old turns sent
            → TurnerStands self.new (turns ++ q ∷ []) (sent ++ result ∷ []) }
        ensures below { result < 4 }
    {
        let sent = (self.latest + q) % 4;
        self.latest = sent;
        sent
    }
}
