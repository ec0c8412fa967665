// Sizes of what a reduction writes, in words. The output may be too short for it, and then only the size is right.
// A record has at most LIMIT words, so a size is counted up to TOO_MANY. That is a number as any other, and no None of an Option: it is added up and compared
// with the room as they are, and an Option, or a type of sizes, would be taken apart at each sum and each slice.
#![tactic(auto)]

ghost use Rattle.std.specs.Prelude.{◌≡◌, ◌+◌, ◌≤◌, min};
ghost use Rattle.sizes.specs.Laid.{too_many, capped};

pub const LIMIT: usize = policy_model::RECORD_WORDS;

pub const TOO_MANY: usize = LIMIT + 1;

// Both sizes together.
pub fn plus(a: usize, b: usize) -> usize
    requires { (a ≤ too_many) × (b ≤ too_many) }
    ensures { result ≡ capped (a + b) }
{
    (a + b).min(TOO_MANY)
}

// Where the tail begins that is lent next, behind `size` words: at its end, where there is no room for them.
pub fn tail_from(size: usize, room: usize) -> usize
    ensures { result ≡ min size room }
{
    size.min(room)
}
