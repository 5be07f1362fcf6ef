// What happens to packets, one after another.
ghost use Rattle.std.specs.Prelude.{◌≡◌, ℕ, Some, Option, suc};
ghost use Rattle.cloud_base.specs.declared.schedule.Fate.{Fate as Fates};
ghost use Rattle.cloud_base.specs.declared.schedule.Fate.TheVariants.{Pass as PassIt};
ghost use Rattle.server_core.specs.Weathers.{Draws, coming, fate_of, number_after, storm_fate};

use cloud_base::Fate;

/// What happens to each push that a server takes.
pub trait Weather: Drop {
    ghost fates: { Self → Option (ℕ → Fates) };

    /// What happens to the next push.
    fn fate(&mut self) -> Fate
        ensures { Draws result (fates self.old) (fates self.new) };
}

/// Each push passes.
#[derive(Clone, Copy, Debug, PartialEq, Eq)]
pub struct Fair;

impl Weather for Fair {
    ghost fates = { λ _. Some (λ k. PassIt) };

    fn fate(&mut self) -> Fate {
        Fate::Pass
    }
}

// By which the numbers of a storm follow each other.
const FACTOR: u64 = 6364136223846793005;

const TERM: u64 = 1442695040888963407;

/// The number of fates of a storm that may be other than to pass.
const STORMY: u32 = 999;

/// Fates by a sequence of numbers that a seed begins. From the thousandth on each push passes.
#[derive(Clone, Debug, Drop)]
pub struct Storm {
    number: u64,
    left: u32,
}

fn following(number: u64) -> u64
    ensures { result ≡ number_after number }
{
    number.wrapping_mul(FACTOR).wrapping_add(TERM)
}

fn by_bits(bits: u64) -> Fate
    ensures { result ≡ fate_of bits }
{
    match bits {
        0 => Fate::LosePush,
        1 => Fate::LoseReply,
        2 => Fate::Twice,
        3 => Fate::Hold,
        _ => Fate::Pass,
    }
}

impl Storm {
    pub fn new(seed: u64) -> Storm
        ensures { (k : ℕ) → coming result.number result.left k ≡ storm_fate seed (suc k) }
    {
        Storm {
            number: seed,
            left: STORMY,
        }
    }
}

impl Weather for Storm {
    ghost fates = { λ s. Some (coming s.number s.left) };

    fn fate(&mut self) -> Fate {
        if self.left == 0 {
            return Fate::Pass;
        }
        self.left -= 1;
        self.number = following(self.number);
        by_bits(self.number >> 61)
    }
}
