//! Remainders of addresses.
ghost use Rattle.std.specs.Prelude.{◌↔◌, ℕ, IsTrue};
ghost use Rattle.wm_races.specs.Window.{IsOfRemainder};

/// Which remainders by 64 some addresses have: a test without a look-up, which rules out most addresses that are not among
/// them.
#[derive(Clone, Copy)]
pub(crate) struct Remainders {
    taken: [bool; 64],
}

impl Remainders {
    /// Those of no address.
    pub fn new() -> Self {
        Remainders { taken: [false; 64] }
    }

    /// Adds the remainder of an address.
    pub fn add(&mut self, address: u64)
        ensures new { IsOfRemainder self.new address }
        ensures old { (a : ℕ) → IsOfRemainder self.old a → IsOfRemainder self.new a }
    {
        self.taken[(address % 64) as usize] = true;
    }

    /// Whether an address has one of them.
    pub fn has(&self, address: u64) -> bool
        ensures { IsTrue result ↔ IsOfRemainder self.now address }
    {
        self.taken[(address % 64) as usize]
    }
}
