//! Sets of numbers below 64.
ghost use Rattle.std.specs.Prelude.{◌≡◌, ℕ, ◌<◌, ◌≤◌, ◌&&◌, ◌||◌, not, true, false, nat_eq, nat_lt};
ghost use Rattle.herm_facts.specs.FactSets.{has};

/// Numbers below 64, a bit for each.
#[derive(Clone, Copy)]
pub struct FactSet {
    pub(crate) bits: u64,
}

impl FactSet {
    #[inline(always)]
    pub fn none() -> FactSet
        ensures { (j : ℕ) → has result j ≡ false }
    {
        FactSet { bits: 0 }
    }

    /// So many first numbers.
    pub fn first(count: usize) -> FactSet
        requires { count ≤ 64 }
        ensures { (j : ℕ) → has result j ≡ nat_lt j count }
    {
        let mut first = FactSet::none();
        for number in 0..count {
            first = first.with(number);
        }
        first
    }

    /// The numbers and one more.
    #[inline(always)]
    pub fn with(self, number: usize) -> FactSet
        requires { number < 64 }
        ensures { (j : ℕ) → has result j ≡ (nat_eq j number || has self j) }
    {
        FactSet {
            bits: self.bits | 1 << number,
        }
    }

    #[inline(always)]
    pub fn holds(self, number: usize) -> bool
        requires { number < 64 }
        ensures { result ≡ has self number }
    {
        self.bits >> number & 1 == 1
    }

    /// The numbers that are in both.
    #[inline(always)]
    pub fn both(self, other: FactSet) -> FactSet
        ensures { (j : ℕ) → has result j ≡ (has self j && has other j) }
    {
        FactSet {
            bits: self.bits & other.bits,
        }
    }

    /// The numbers that are in one of them.
    #[inline(always)]
    pub fn either(self, other: FactSet) -> FactSet
        ensures { (j : ℕ) → has result j ≡ (has self j || has other j) }
    {
        FactSet {
            bits: self.bits | other.bits,
        }
    }

    /// The numbers that are not in the other.
    #[inline(always)]
    pub fn without(self, other: FactSet) -> FactSet
        ensures { (j : ℕ) → has result j ≡ (has self j && not (has other j)) }
    {
        FactSet {
            bits: self.bits & !other.bits,
        }
    }

    #[inline(always)]
    pub fn is_empty(self) -> bool
        ensures none { result ≡ true → (j : ℕ) → has self j ≡ false }
        ensures some { result ≡ false → (j : ℕ) × (j < 64) × (has self j ≡ true) }
    {
        self.bits == 0
    }
}
