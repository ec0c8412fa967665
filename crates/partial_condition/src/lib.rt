// Conditions reduced, after gatekeep's partial.rs: a condition under a table that leaves facts open is known, or what is left of it is written to the
// front of `out`, which may be too short for it: then only its size is right. The facts that were read as known are listed on the way, as in `condition`.
#![tactic(auto)]

ghost use Rattle.std.specs.Prelude.{◌≡◌, ◌+◌, ◌^◌, ◌≤◌, ◌<◌, set};
ghost use Rattle.model.specs.Facts.{fact_count, table_of};
ghost use Rattle.model.specs.Writing.{count_bits, word};
ghost use Rattle.consulted.specs.Listing.{held};
ghost use Rattle.sizes.specs.Laid.{too_many};
ghost use Rattle.partial_condition.specs.Reducing.{size_of, ReducesC, ReducesHas, ReducesList};
ghost use Rattle.partial_condition.specs.Holding.{list_kind, MovedUp, Keeps, Negates, Ends};

use condition::Walk;
use consulted::Consulted;
use policy_model::ConditionHead;

// What a condition came to: its value, or the size of what is left of it.
#[derive(Clone, Copy)]
pub enum Reduced {
    Known(bool),
    Pending(usize),
}

// That, and the position after the condition's words.
#[derive(Clone, Copy)]
pub struct ReducedCondition {
    pub to: Reduced,
    pub next: usize,
}

// The pending arms that a list rule keeps: how many, the size of the first, 0 of none, and how many words they take, with the word that is free for a
// lead.
#[derive(Clone, Copy)]
struct Kept {
    pub count: u32,
    pub first: usize,
    pub used: usize,
}

// The first word of the output, if there is one.
pub fn put_first(word: u32, out: &mut [u32])
    ensures { out.new ≡ set out.old 0 word }
{
    if let Some(first) = out.first_mut() {
        *first = word;
    }
}

// Moves the first `size` words up by one, if there is room.
fn move_up(size: usize, out: &mut [u32])
    ensures { MovedUp size out.old out.new }
{
    if size < out.len() {
        out.copy_within(0..size, 1);
    }
}

// A Has: pending on Unknown, which isn't consulted.
fn reduce_has(walk: &Walk<'_>, fact: u32, consulted: &mut Consulted<'_>, out: &mut [u32]) -> Reduced
    requires { fact < fact_count }
    ensures { ReducesHas (table_of walk.now.facts.now) fact (held consulted.old) result (held consulted.new) out.new }
{
    if facts::settled(walk.facts, fact) {
        return Reduced::Known(walk.eval_has(fact, consulted));
    }
    put_first(policy_model::LEAD_HAS + fact, out);
    Reduced::Pending(1)
}

// Not of `inner`, what is left of which stands behind one free word.
fn negated(inner: Reduced, out: &mut [u32]) -> Reduced
    requires { size_of inner ≤ too_many }
    ensures { Negates inner out.old result out.new }
{
    match inner {
        Reduced::Known(satisfied) => Reduced::Known(!satisfied),
        Reduced::Pending(size) => {
            put_first(policy_model::LEAD_NOT, out);
            Reduced::Pending(sizes::plus(1, size))
        }
    }
}

// The condition at `at`, of at most `depth` levels. An All or an Any hands its arms to the list rule; All without arms is false.
#[cycle(reduction)]
pub fn reduce_condition(
    walk: &Walk<'_>,
    at: usize,
    depth: usize,
    consulted: &mut Consulted<'_>,
    out: &mut [u32],
) -> ReducedCondition
    ensures { ReducesC (table_of walk.now.facts.now) walk.now.words.now at depth (held consulted.old) result (held consulted.new) out.new }
{
    let none = ReducedCondition {
        to: Reduced::Known(false),
        next: at,
    };
    if walk.words.len() <= at || depth == 0 {
        return none;
    }
    let next = at + 1;
    let below = depth - 1;
    let to = match policy_model::condition_head(walk.words[at]) {
        ConditionHead::Always => Reduced::Known(true),
        ConditionHead::Never => Reduced::Known(false),
        ConditionHead::Has(fact) => reduce_has(walk, fact, consulted, out),
        ConditionHead::Not => {
            let from = sizes::tail_from(1, out.len());
            let inner = reduce_condition(walk, next, below, consulted, &mut out[from..]);
            return ReducedCondition {
                to: negated(inner.to, out),
                next: inner.next,
            };
        }
        ConditionHead::All(0) => Reduced::Known(false),
        ConditionHead::All(arms) => {
            return reduce_arms(walk, next, below, arms, false, consulted, out);
        }
        ConditionHead::Any(arms) => {
            return reduce_arms(walk, next, below, arms, true, consulted, out);
        }
        ConditionHead::BadKind | ConditionHead::BadField => return none,
    };
    ReducedCondition { to, next }
}

// The same of an arm. A Has, the commonest arm, is seen here, so that the list rule reads it with no call.
#[cycle(reduction)]
fn reduce_arm(
    walk: &Walk<'_>,
    at: usize,
    depth: usize,
    consulted: &mut Consulted<'_>,
    out: &mut [u32],
) -> ReducedCondition
    ensures { ReducesC (table_of walk.now.facts.now) walk.now.words.now at depth (held consulted.old) result (held consulted.new) out.new }
{
    if at < walk.words.len() {
        let word = walk.words[at];
        if word / policy_model::FACTS == policy_model::HAS {
            return ReducedCondition {
                to: reduce_has(walk, word % policy_model::FACTS, consulted, out),
                next: at + 1,
            };
        }
    }
    reduce_condition(walk, at, depth, consulted, out)
}

// One pending arm more, of this size, which stands behind the words that are kept. The first is moved up when it turns out not to be alone.
fn keep(kept: Kept, size: usize, out: &mut [u32]) -> Kept
    requires { (kept.count < 2 ^ count_bits) × (kept.first ≤ too_many) × (kept.used ≤ too_many) × (size ≤ too_many) }
    ensures { Keeps kept size out.old result out.new }
{
    if kept.count == 0 {
        return Kept {
            count: 1,
            first: size,
            used: sizes::plus(size, 1),
        };
    }
    if kept.count == 1 {
        move_up(kept.first, out);
    }
    Kept {
        count: kept.count + 1,
        first: kept.first,
        used: sizes::plus(kept.used, size),
    }
}

// The lead of the list that an arm of the value `stop` decides: false an All, true an Any. An enum would be made from the value for this one test.
fn lead(stop: bool, count: u32) -> u32
    requires { count < 2 ^ count_bits }
    ensures { result ≡ word (list_kind stop) count }
{
    if stop {
        return policy_model::LEAD_CONDITION_ANY + count;
    }
    policy_model::LEAD_CONDITION_ALL + count
}

// A list rule that no arm decided: known without pending arms, else the arm that is alone, or a list of them.
fn ended(stop: bool, kept: Kept, out: &mut [u32]) -> Reduced
    requires { (kept.count < 2 ^ count_bits) × (kept.first ≤ too_many) × (kept.used ≤ too_many) }
    ensures { Ends stop kept out.old result out.new }
{
    if kept.count == 0 {
        return Reduced::Known(!stop);
    }
    if kept.count < 2 {
        return Reduced::Pending(kept.first);
    }
    put_first(lead(stop, kept.count), out);
    Reduced::Pending(kept.used)
}

// The list rule for `arms` conditions from `at`. The first arm that is known to have the value `stop` decides it, and the arms after that one aren't read:
// an All stops at false, an Any at true. `stop` is that value, and no switch.
#[cycle(reduction)]
fn reduce_arms(
    walk: &Walk<'_>,
    at: usize,
    depth: usize,
    arms: u32,
    stop: bool,
    consulted: &mut Consulted<'_>,
    out: &mut [u32],
) -> ReducedCondition
    requires { arms < 2 ^ count_bits }
    ensures { ReducesList stop (table_of walk.now.facts.now) walk.now.words.now at depth arms (held consulted.old) result (held consulted.new) out.new }
{
    let mut kept = Kept {
        count: 0,
        first: 0,
        used: 0,
    };
    let mut next = at;
    for left in (0..arms).rev() {
        let from = sizes::tail_from(kept.used, out.len());
        let arm = reduce_arm(walk, next, depth, consulted, &mut out[from..]);
        next = arm.next;
        match arm.to {
            Reduced::Pending(size) => kept = keep(kept, size, out),
            Reduced::Known(satisfied) => {
                if satisfied == stop {
                    return ReducedCondition {
                        to: arm.to,
                        next: policy_model::skip_conditions(walk.words, next, left),
                    };
                }
            }
        }
    }
    ReducedCondition {
        to: ended(stop, kept, out),
        next,
    }
}
