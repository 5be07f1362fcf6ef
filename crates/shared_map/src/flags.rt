// A row of flags.
ghost use Rattle.std.specs.Prelude.{◌≡◌, ◌≢◌, ℕ, ◌<◌, ◌↔◌, [], false, true, length, IsTrue, IfOk, slice_set, slice_index_or};
ghost use Rattle.std.specs.Int.{bit_at};
ghost use lib.ListN.{replicate};

use std::alloc::{AllocError, Global};
use std::marker::Model;

/// Flags, sixty-four to a word.
#[derive(Drop)]
pub(crate) struct Flags {
    words: Vec<u64>,
    count: usize,
}

impl Model for Flags {
    ghost use Rattle.std.specs.Prelude.{List, Bool, ◌*◌, ◌≤◌, length};
    ghost use Rattle.shared_map.specs.Flags.{flags_in};

    ghost Value = { List Bool };

    ghost view = { λ f. flags_in f.words.items f.count };

    ghost invariant = { λ f. f.count ≤ 64 * length f.words.items };
}

fn has_bit(word: u64, bit: u32) -> bool
    requires { bit < 64 }
    ensures { IsTrue result ↔ (bit_at word bit ≡ 1) }
{
    word & (1 << bit) != 0
}

fn with_bit(word: u64, bit: u32) -> u64
    requires { bit < 64 }
    ensures set { bit_at result bit ≡ 1 }
    ensures others { (other : ℕ) → other ≢ bit → bit_at result other ≡ bit_at word other }
{
    word | (1 << bit)
}

impl Flags {
    /// No flags.
    pub(crate) fn empty(alloc: Global) -> Flags
        ensures { result ≡ [] }
    {
        Flags {
            words: Vec::new(alloc),
            count: 0,
        }
    }

    /// Flags of which none is set.
    pub(crate) fn none(alloc: Global, count: usize) -> Result<Flags, AllocError>
        ensures { IfOk result (λ flags. flags ≡ replicate count false) }
    {
        Ok(Flags {
            words: vec![in alloc; 0; count.div_ceil(64)]?,
            count,
        })
    }

    pub(crate) fn copied(&self, alloc: Global) -> Result<Flags, AllocError>
        ensures { IfOk result (λ copy. copy ≡ self.now) }
    {
        Ok(Flags {
            words: self.words.as_slice().to_vec(alloc)?,
            count: self.count,
        })
    }

    pub(crate) fn is_set(&self, at: usize) -> bool
        requires { at < length self.now }
        ensures { result ≡ slice_index_or self.now at false }
    {
        has_bit(self.words[at / 64], (at % 64) as u32)
    }

    pub(crate) fn set(&mut self, at: usize)
        requires { at < length self.old }
        ensures { self.new ≡ slice_set self.old at true }
    {
        let word = with_bit(self.words[at / 64], (at % 64) as u32);
        self.words[at / 64] = word;
    }
}
