//! The starts of a round's workers, spread by chance.
use rand_core::utils::NextWord;
use rand_pcg::Pcg32;
use std::hint::spin_loop;

/// Where the chance comes from: each worker has a stream of numbers of its own from this seed.
const SEED: u64 = 0x5EED_0F57_A275;

/// A worker pauses for fewer turns than this: some microseconds, about as long as a short thread runs.
const MAX_PAUSES: u32 = 256;

/// How long a worker pauses before its first step of each round, so that the rounds of a crew differ among each other.
#[derive(Drop)]
pub struct Spread {
    numbers: Pcg32,
}

impl Spread {
    /// The pauses of a worker, before its first round.
    pub fn new(thread: u32) -> Spread {
        Spread {
            numbers: Pcg32::new(SEED, u64::from(thread)),
        }
    }

    /// Pauses as the worker does before its next round.
    pub fn pause(&mut self) {
        let turns = self.numbers.next_word() % MAX_PAUSES;
        for _ in 0..turns {
            spin_loop();
        }
    }
}
