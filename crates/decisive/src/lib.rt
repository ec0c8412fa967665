// The decisive facts of a condition, after gatekeep's evaluate.rs: the facts that its evaluation names, into a slice that the caller lends.
#![tactic(auto)]

ghost use Rattle.std.specs.Prelude.{not, ◌+◌, ◌≤◌, ◌<◌, length, drop};
ghost use Rattle.model.specs.Facts.{fact_count, table_of};
ghost use Rattle.model.specs.Condition.{cnil, ccons};
ghost use Rattle.model.specs.Reading.{read_condition, many};
ghost use Rattle.decisive.specs.Naming.{Says, NamesFact, Decisive, DecisiveArms};

use condition::Walk;
use policy_model::ConditionHead;

// Whether a condition is satisfied, the position after it, and how many facts it names.
#[derive(Drop)]
pub struct Named {
    pub satisfied: bool,
    pub next: usize,
    pub count: usize,
}

// No fact is named.
fn nothing(satisfied: bool, next: usize) -> Named
    ensures { Says satisfied next 0 result }
{
    Named {
        satisfied,
        next,
        count: 0,
    }
}

// Has is true on Present, and names its fact.
fn name_fact(fact: u32, next: usize, facts: &[u8], out: &mut [u16]) -> Named
    requires { (fact < fact_count) × (0 < length out.old) }
    ensures { NamesFact (table_of facts.now) fact next out.old out.new result }
{
    out[0] = fact as u16;
    Named {
        satisfied: facts::present(facts, fact),
        next,
        count: 1,
    }
}

// Not flips, and keeps the facts.
fn negated(inner: Named) -> Named
    ensures { Says (not inner.satisfied) inner.next inner.count result }
{
    Named {
        satisfied: !inner.satisfied,
        ..inner
    }
}

// The decisive facts of the condition at `at`, with `depth` levels left: they stand first in `out`, and what stands after them is spent.
// A condition names no more facts than it has words, so room for the words that are left is enough.
#[cycle(naming)]
fn decisive_facts(walk: &Walk<'_>, at: usize, depth: usize, out: &mut [u16]) -> Named
    requires { length walk.now.words.now ≤ at + length out.old }
    ensures { Decisive (table_of walk.now.facts.now) at (read_condition depth (drop at walk.now.words.now)) out.new result }
{
    if walk.words.len() <= at || depth == 0 {
        return nothing(false, at);
    }
    let next = at + 1;
    let below = depth - 1;
    match policy_model::condition_head(walk.words[at]) {
        ConditionHead::Always => nothing(true, next),
        ConditionHead::Never => nothing(false, next),
        ConditionHead::Has(fact) => name_fact(fact, next, walk.facts, out),
        ConditionHead::Not => negated(decisive_facts(walk, next, below, out)),
        ConditionHead::All(0) => nothing(false, next),
        ConditionHead::All(arms) => decisive_arms(walk, next, below, arms, out, false),
        ConditionHead::Any(arms) => decisive_arms(walk, next, below, arms, out, true),
        ConditionHead::BadKind | ConditionHead::BadField => nothing(false, at),
    }
}

// The same of an arm, or of a grant's condition. Most are a Has, which is seen here, so that whoever asks has it with no call of the cycle.
#[cycle(naming)]
pub fn decisive_arm(walk: &Walk<'_>, at: usize, depth: usize, out: &mut [u16]) -> Named
    requires { length walk.now.words.now ≤ at + length out.old }
    ensures { Decisive (table_of walk.now.facts.now) at (read_condition depth (drop at walk.now.words.now)) out.new result }
{
    if walk.words.len() <= at {
        return nothing(false, at);
    }
    let word = walk.words[at];
    if word / policy_model::FACTS == policy_model::HAS {
        return name_fact(word % policy_model::FACTS, at + 1, walk.facts, out);
    }
    decisive_facts(walk, at, depth, out)
}

// The list rule for `arms` conditions from `at`. The facts of an arm stand after those of the arms before it. The first arm that has the value `stop`
// decides: its facts alone are kept, and later arms aren't read. All stops at false, Any at true: `stop` is the value, and no switch.
// Beside `reduce_arms` of partial_condition and `visit_conditions` of visits: facts, what is left, or a count is what each loop is about.
#[cycle(naming)]
fn decisive_arms(
    walk: &Walk<'_>,
    at: usize,
    depth: usize,
    arms: u32,
    out: &mut [u16],
    stop: bool,
) -> Named
    requires { length walk.now.words.now ≤ at + length out.old }
    ensures { DecisiveArms (table_of walk.now.facts.now) stop at (many cnil ccons (read_condition depth) arms (drop at walk.now.words.now)) out.new result }
{
    let mut next = at;
    let mut count = 0;
    for left in (0..arms).rev() {
        let arm = decisive_arm(walk, next, depth, &mut out[count..]);
        next = arm.next;
        if arm.satisfied == stop {
            out.copy_within(count..count + arm.count, 0);
            return Named {
                satisfied: stop,
                next: policy_model::skip_conditions(walk.words, next, left),
                count: arm.count,
            };
        }
        count += arm.count;
    }
    Named {
        satisfied: !stop,
        next,
        count,
    }
}
