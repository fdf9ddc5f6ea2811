//! The words that choose the order of a run.

ghost use Rattle.std.specs.Prelude.{◌≡◌};
ghost use Rattle.job_runs.specs.Runs.{generator};

use rand_core::SeedableRng;
use rand_core::utils::NextWord;
use rand_pcg::Lcg64Xsh32;
use std::marker::Model;
use worlds::Chooser;

/// A generator of 32-bit words, of which each chooses a step: of n possible ones, the one whose number is the word modulo n.
#[derive(Drop)]
pub struct Words {
    generator: Lcg64Xsh32,
}

impl Model for Words {
    ghost use Rattle.rand_pcg.specs.Lcg.{Lcg};

    ghost Value = { Lcg };

    ghost view = { λ words. words.generator };
}

impl Words {
    /// The words of a generator that is seeded by this number.
    pub fn of(seed: u64) -> Words
        ensures { result ≡ generator seed }
    {
        Words {
            generator: Lcg64Xsh32::seed_from_u64(seed),
        }
    }
}

impl Chooser for Words {
    ghost use Rattle.job_runs.specs.Runs.{chosen_number, words_left};

    ghost answer = { chosen_number };

    ghost after = { words_left };

    fn choose(&mut self, n: u64) -> u64 {
        u64::from(self.generator.next_word()) % n
    }
}
