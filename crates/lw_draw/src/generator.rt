//! The numbers of a seed.
ghost use Rattle.std.specs.Prelude.{◌≡◌, IfOk};
ghost use Rattle.lw_draw.specs.Drawn.{after_draws, draw_at, seeded};

use lw_words::NoMemory;
use rand_core::SeedableRng;
use rand_core::utils::NextWord;
use rand_pcg::Lcg128Xsl64;
use std::marker::Model;

/// The numbers of a seed, one after the other: PCG with 128 bits of state (XSL RR, O'Neill 2014), `Lcg128Xsl64` of `rand_pcg`,
/// begun by `seed_from_u64`. Contracts see the generator.
#[derive(Drop)]
pub struct Generator {
    pcg: Lcg128Xsl64,
}

impl Model for Generator {
    ghost use Rattle.rand_pcg.specs.Lcg.{Lcg};

    ghost Value = { Lcg };

    ghost view = { λ g. g.pcg };
}

impl Generator {
    /// Takes no memory.
    pub fn of_seed(seed: u64) -> Generator
        ensures { result ≡ seeded seed }
    {
        Generator {
            pcg: Lcg128Xsl64::seed_from_u64(seed),
        }
    }

    /// The same numbers from here on.
    pub fn copy(&self) -> Result<Generator, NoMemory>
        ensures { IfOk result (λ g. g ≡ self.now) }
    {
        Ok(Generator {
            pcg: self.pcg.clone()?,
        })
    }

    /// Passes over this many numbers, in a time that grows as the logarithm of how many they are.
    pub fn skip(&mut self, count: u128)
        ensures { self.new ≡ after_draws self.old count }
    {
        self.pcg.advance(count);
    }

    /// The next number.
    pub fn draw(&mut self) -> u64
        ensures number { result ≡ draw_at self.old 0 }
        ensures next { self.new ≡ after_draws self.old 1 }
    {
        self.pcg.next_word()
    }
}
