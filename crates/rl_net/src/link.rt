//! A link that loses some messages, and never more than fifteen in a row.

ghost use Rattle.std.specs.Prelude.{◌≡◌, ◌≤◌};
ghost use Rattle.rand_core.specs.Pcg32Seed.{pcg32_seed};
ghost use Rattle.rand_pcg.specs.Pcg.{pcg32_of_seed};
ghost use Rattle.rl_net.specs.Losses.{next_loss};

use rand_core::SeedableRng;
use rand_core::utils::NextWord;
use rand_pcg::Lcg64Xsh32;
use std::marker::Model;

/// The most messages that a link loses in a row.
pub const MOST_IN_ROW: u32 = 15;

/// Draws which messages are lost. Contracts see the generator, the loss per mille and how many
/// messages were lost in a row.
#[derive(Drop)]
pub struct Link {
    words: Lcg64Xsh32,
    loss: u32,
    in_row: u32,
}

impl Model for Link {
    ghost use Rattle.std.specs.Prelude.{◌≤◌};
    ghost use Rattle.rl_net.specs.Losses.{Losses};
    ghost use Rattle.rl_net.specs.declared.link.TheConstants.{MOST_IN_ROW};

    ghost Value = { Losses };

    ghost view = { λ l. record { words = l.words; loss = l.loss; in_row = l.in_row } };

    ghost invariant = { λ l. l.in_row ≤ MOST_IN_ROW };
}

impl Link {
    /// A link that loses `loss` of 1,000 messages, as the words of `Lcg64Xsh32::seed_from_u64(seed)`
    /// fall.
    pub fn new(seed: u64, loss: u32) -> Link
        ensures { result ≡
            record { words = pcg32_of_seed (pcg32_seed 16 seed); loss = loss; in_row = 0 } }
    {
        Link {
            words: Lcg64Xsh32::seed_from_u64(seed),
            loss,
            in_row: 0,
        }
    }

    /// Whether the next message is lost.
    ///
    /// Draws the next word. The message is lost exactly where the word, modulo 1,000, is below the
    /// loss and fewer than fifteen messages before it were lost in a row.
    pub fn lost(&mut self) -> bool
        ensures next { (result, self.new) ≡ next_loss self.old }
        ensures few { self.new.in_row ≤ MOST_IN_ROW }
    {
        let word = self.words.next_word();
        let lost = word % 1000 < self.loss && self.in_row < MOST_IN_ROW;
        self.in_row = if lost { self.in_row + 1 } else { 0 };
        lost
    }
}
