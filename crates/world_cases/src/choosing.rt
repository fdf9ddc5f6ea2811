//! A chooser: the numbers of a linear congruential generator.

use worlds::Chooser;

/// The generator's state.
#[derive(Clone, Copy)]
pub struct Linear {
    /// The last number that it made, or what it began with; its lowest 31 bits count.
    pub state: u64,
}

impl Chooser for Linear {
    ghost use Rattle.std.specs.Prelude.{◌+◌, ◌*◌, ◌/◌, ◌%◌};

    ghost answer = { λ chooser n. (chooser.state % 2147483648 * 1103515245 + 12345) % 2147483648 / 65536 % n };

    ghost after = { λ chooser n. record { state = chooser.state % 2147483648 * 1103515245 + 12345 } };

    fn choose(&mut self, n: u64) -> u64 {
        let next = self.state % 2_147_483_648 * 1_103_515_245 + 12_345;
        self.state = next;
        next % 2_147_483_648 / 65_536 % n
    }
}
