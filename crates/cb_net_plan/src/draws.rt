//! Numbers that are drawn from a seed.
ghost use Rattle.std.specs.Prelude.{◌≡◌, ◌≤◌, ◌-◌};
ghost use Rattle.cb_net_plan.specs.Draws.{after, below, between, first_number, mixed};

/// How far the state of `Draws` moves on with each draw.
const STEP: u64 = 0x9e37_79b9_7f4a_7c15;

/// Numbers of 64 bits that are drawn from a seed by SplitMix64 (Steele, Lea and Flood, "Fast
/// splittable pseudorandom number generators", 2014; the constants are those of Vigna's code). The
/// same seed gives the same numbers on every machine. They are no secret.
#[derive(Clone, Copy)]
pub struct Draws {
    state: u64,
}

impl Draws {
    /// The numbers of this seed, from the first on.
    pub fn new(seed: u64) -> Draws
        ensures { result ≡ record { state = seed } }
    {
        Draws { state: seed }
    }

    /// The next number.
    pub fn next(&mut self) -> u64
        ensures number { result ≡ first_number self.old }
        ensures after { self.new ≡ after self.old }
    {
        self.state = self.state.wrapping_add(STEP);
        mix(self.state)
    }

    /// A number below the bound: what is left of the next number when it is divided by the bound.
    /// So where the bound doesn't divide 2^64, low numbers come more often, by one part in
    /// 2^64 / `bound`. It is 0 if the bound is 0.
    pub fn below(&mut self, bound: u64) -> u64
        ensures number { result ≡ below bound self.old }
        ensures after { self.new ≡ after self.old }
        ensures within { result ≤ bound - 1 }
    {
        let drawn = self.next();
        if bound == 0 {
            return 0;
        }
        drawn % bound
    }

    /// The same of 32 bits.
    pub fn below_u32(&mut self, bound: u32) -> u32
        ensures number { result ≡ below bound self.old }
        ensures after { self.new ≡ after self.old }
        ensures within { result ≤ bound - 1 }
    {
        self.below(u64::from(bound)) as u32
    }

    /// A number from `low` to `high`, drawn as by `below`. It is `low` if `high` is lower.
    pub fn between(&mut self, low: u64, high: u64) -> u64
        ensures number { result ≡ between low high self.old }
        ensures after { self.new ≡ after self.old }
    {
        let drawn = self.next();
        let width = high.saturating_sub(low);
        if width == u64::MAX {
            return drawn;
        }
        low + drawn % (width + 1)
    }
}

/// The number that a state gives.
fn mix(state: u64) -> u64
    ensures { result ≡ mixed state }
{
    let first = (state ^ (state >> 30)).wrapping_mul(0xbf58_476d_1ce4_e5b9);
    let second = (first ^ (first >> 27)).wrapping_mul(0x94d0_49bb_1331_11eb);
    second ^ (second >> 31)
}
