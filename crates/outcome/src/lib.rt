// Outcomes: sets of sixteen products, after gatekeep's outcome type with its `Lattice`; by an outcome table (request 14), levels.
#![tactic(auto)]

ghost use Rattle.std.specs.Prelude.{◌≡◌, [], ◌∷◌, ◌≤◌};
ghost use Rattle.model.specs.Outcome.{product_sets, union_of, intersection_of};
ghost use Rattle.model.specs.Levels.{outcome_count};
ghost use Rattle.outcome.specs.Carried.{operation_of, outcome_by, table_of, carried};

// An outcome: a set of products, one bit each, or the number of a level.
#[derive(Clone, Copy)]
pub struct Products {
    pub bits: u16,
}

// How many sets of products there are.
pub const SETS: u32 = 65536;

// Levels in place of sets: how many, and a byte for each ordered pair's meet, first level slowest, and then so for join.
#[derive(Clone, Copy)]
pub struct OutcomeTable<'a> {
    pub levels: u16,
    pub bytes: &'a [u8],
}

#[derive(Clone, Copy)]
pub enum Operation {
    Meet,
    Join,
}

// How many outcomes there are: by a table its levels, and without one the sets of products.
pub fn most(outcomes: Option<OutcomeTable<'_>>) -> u32
    ensures counts { result ≡ outcome_count (carried outcomes.entry) }
    ensures few { result ≤ 65536 }
{
    match outcomes {
        None => SETS,
        Some(table) => table.levels as u32,
    }
}

impl OutcomeTable<'_> {
    // What an operation makes of two levels. Of what is no level it makes the number of levels, a number for none: so the operation is total, and its laws have
    // no premise. Past its bytes a table reads 0.
    pub fn of(self, operation: Operation, a: u16, b: u16) -> u16
        ensures { result ≡ operation_of operation (table_of self.entry) a b }
    {
        if a >= self.levels || b >= self.levels {
            return self.levels;
        }
        let levels = self.levels as usize;
        let from = match operation {
            Operation::Meet => 0,
            Operation::Join => levels * levels,
        };
        match self.bytes.get(from + a as usize * levels + b as usize) {
            Some(level) => *level as u16,
            None => 0,
        }
    }
}

impl Products {
    // The two ends, no product and all sixteen. The unions and intersections of the definitions begin at them, and so do `join` and `meet`.
    pub const NONE: Products = Products { bits: 0 };

    pub const ALL: Products = Products { bits: 0xffff };

    // The products of both sets.
    pub fn meet(self, other: Products) -> Products
        ensures { result.bits ≡ intersection_of (self.bits ∷ (other.bits ∷ [])) }
    {
        Products {
            bits: self.bits & (other.bits & Products::ALL.bits),
        }
    }

    // The products of either set.
    pub fn join(self, other: Products) -> Products
        ensures { result.bits ≡ union_of (self.bits ∷ (other.bits ∷ [])) }
    {
        Products {
            bits: self.bits | (other.bits | Products::NONE.bits),
        }
    }

    // Whether the two are equal. Outcomes are met, joined and compared by the functions of this type alone.
    pub fn same(self, other: Products) -> bool
        ensures { result ≡ product_sets.same self.bits other.bits }
    {
        self.bits == other.bits
    }

    // What an operation makes of both: by a table, of levels; without one, of sets. Compiled into the list rules: with a call, an All of 4,095 Permits is
    // evaluated in 39 µs in place of 24, and an Any of 1,365 grants in 27 in place of 25.
    #[tactic(auto, using(crate::proofs::Operations::by_levels))]
    #[inline]
    pub fn by(
        self,
        operation: Operation,
        other: Products,
        outcomes: Option<OutcomeTable<'_>>,
    ) -> Products
        ensures { result.bits ≡ outcome_by operation (carried outcomes.entry) self.bits other.bits }
    {
        match outcomes {
            None => match operation {
                Operation::Meet => self.meet(other),
                Operation::Join => self.join(other),
            },
            Some(table) => Products {
                bits: table.of(operation, self.bits, other.bits),
            },
        }
    }
}
