// A set of facts: one bit for each fact, fact 0 the top bit of the first number.
#![tactic(auto)]

ghost use Rattle.std.specs.Prelude.{◌/◌, ◌<◌, eqb, length};
ghost use Rattle.fact_set.specs.Sets.{Grown, Contained};

// How many numbers a set that has every fact takes.
pub const NUMBERS: usize = 16;

// Such a set. The functions take a slice, since one that is lent may have another length.
pub type FactSet = [u64; NUMBERS];

// How many facts a number holds, and the bit of its first.
const NUMBER_FACTS: u32 = 64;

const FIRST_FACT: u64 = 9223372036854775808;

// Puts a fact into a set that has a number for it.
pub fn put(set: &mut [u64], fact: u32)
    requires { fact / 64 < length set.old }
    ensures { Grown (λ f. eqb f fact) set.old set.new }
{
    let at = (fact / NUMBER_FACTS) as usize;
    let bit = FIRST_FACT >> (fact % NUMBER_FACTS);
    set[at] |= bit;
}

// Puts a fact into the set. A set that is too short for it is left as it was.
pub fn insert(set: &mut [u64], fact: u32)
    ensures { Grown (λ f. eqb f fact) set.old set.new }
{
    let at = (fact / NUMBER_FACTS) as usize;
    if at < set.len() {
        put(set, fact);
    }
}

// Whether the set has a fact. One that is too short for it doesn't.
pub fn contains(set: &[u64], fact: u32) -> bool
    ensures { Contained fact set.now result }
{
    let at = (fact / NUMBER_FACTS) as usize;
    if set.len() <= at {
        return false;
    }
    (set[at] >> (NUMBER_FACTS - 1 - fact % NUMBER_FACTS)) % 2 == 1
}
