// Sets of settings: a set is a 64-bit number, "bit s stands for setting s" (document 01). It goes in by value and the changed set comes back.
#![tactic(auto)]

ghost use Rattle.std.specs.Prelude.{◌≡◌, ◌&&◌, ◌||◌, not, ℕ, ◌^◌, eqb, ltb, leb, get_or};
ghost use Rattle.sets.specs.Member.{bit, has, members, verdict_of, full_of, full_has};

#[derive(Clone, Copy, PartialEq, Eq)]
pub struct Set {
    pub bits: u64,
}

impl Set {
    pub fn empty() -> Set
        ensures { result.bits ≡ 0 }
    {
        Set { bits: 0 }
    }

    // The set at place k of a table of sets, and past its end the empty set.
    pub fn at(table: &[u64], k: usize) -> Set
        ensures { result.bits ≡ get_or table.now k 0 }
    {
        Set {
            bits: table.get(k).copied().unwrap_or(0),
        }
    }

    pub fn meet(self, other: Set) -> Set
        ensures { (s : ℕ) → has result s ≡ (has self s && has other s) }
    {
        Set {
            bits: self.bits & other.bits,
        }
    }

    pub fn join(self, other: Set) -> Set
        ensures { (s : ℕ) → has result s ≡ (has self s || has other s) }
    {
        Set {
            bits: self.bits | other.bits,
        }
    }

    // What is left of `self` when the settings of `other` are taken away.
    pub fn take_away(self, other: Set) -> Set
        ensures { (s : ℕ) → has result s ≡ (has self s && not (has other s)) }
    {
        Set {
            bits: self.bits & !other.bits,
        }
    }

    // "asked for a member (at 64 or above: no)": a shift by 64 or more would be undefined.
    pub fn has(self, s: u64) -> bool
        ensures { result ≡ has self s }
    {
        if 64 <= s {
            false
        } else {
            (self.bits >> s) & 1 == 1
        }
    }

    pub fn is_empty(self) -> bool
        ensures { result ≡ eqb (members self.bits 64) 0 }
    {
        self.bits == 0
    }

    pub fn count(self) -> u32
        ensures { result ≡ members self.bits 64 }
    {
        self.bits.count_ones()
    }

    // The set with setting s joined. A setting at 64 or above can be no member, so the set is unchanged.
    pub fn with(self, s: u64) -> Set
        ensures { (x : ℕ) → has result x ≡ (has self x || (eqb x s && ltb s 64)) }
    {
        if 64 <= s {
            return self;
        }
        self.join(Set { bits: 1u64 << s })
    }

    // The n = 2^f settings of f options, "refused with 3 when F is above 6": what is left of all 64 when the upper ones are shifted out.
    pub fn full(f: u32) -> Option<Set>
        ensures verdict { verdict_of result ≡ full_of f }
        ensures members { (s : ℕ) → full_has result s ≡ (leb f 6 && ltb s (2 ^ f)) }
    {
        if 6 < f {
            return None;
        }
        let n = 1u64 << f;
        Some(Set {
            bits: u64::MAX >> (64 - n),
        })
    }

    // The settings of `full` in which option k is on. There is no option 6 or above: no setting below 64 has such a bit.
    pub fn option(full: Set, k: u32) -> Set
        ensures { (s : ℕ) → has result s ≡ (has full s && bit s k) }
    {
        if 6 <= k {
            return Set::empty();
        }
        // All ones divided by 2^w + 1 are w ones and w zeros in turn; with w = 2^k the ones are the settings in which option k is off.
        let stripe = 1u64 << k;
        full.take_away(Set {
            bits: u64::MAX / ((1u64 << stripe) + 1),
        })
    }
}
