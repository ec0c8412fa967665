// Required facts, after gatekeep's evaluate.rs: the set of the facts that a tree names, and their count. The walk over a condition takes the set by value, and
// returns it grown with the index of the next word; the one over policies lends it, so that nodes without a condition copy nothing.
#![tactic(auto)]

ghost use Rattle.std.specs.Prelude.{◌≡◌, true, ◌+◌, ◌≤◌, ◌<◌, length, drop, get_or, replicate};
ghost use Rattle.model.specs.Condition.{names_c};
ghost use Rattle.model.specs.Reading.{levels, read_condition};
ghost use Rattle.model.specs.Required.{ones};
ghost use Rattle.model.specs.Products.{read_sheet, read_record, required_facts, required_residual_facts, policy_at};
ghost use Rattle.laws.specs.Size.{words_c};
ghost use Rattle.policy_model.specs.Heads.{policy_head};
ghost use Rattle.required.specs.Sets.{Collected};
ghost use Rattle.required.specs.Nodes.{OwnFacts};
ghost use Rattle.required.specs.Answers.{set_after, SetOf, FactsOf, Answered, tree_of};

use fact_set::FactSet;
use policy_model::Status;
use refusal::Refusal;

// What the walk over a condition gives: the grown set, and the index of the next word.
#[derive(Drop)]
struct Grew {
    set: FactSet,
    next: usize,
}

// Adds the facts of the condition at `at`, of at most `depth` levels: its own, or those of each of its arms.
#[tactic(auto, using(crate::proofs::Conditions::condition_walks))]
fn collect_condition_facts(words: &[u32], at: usize, depth: usize, set: FactSet) -> Grew
    ensures facts { Collected words_c names_c at set result.set (read_condition depth (drop at words.now)) result.next }
    ensures forward { at ≤ result.next }
{
    if words.len() <= at || depth == 0 {
        return Grew { set, next: at };
    }
    let word = words[at];
    let mut grown = set;
    let mut next = at + 1;
    if word / policy_model::FACTS == policy_model::HAS {
        fact_set::put(&mut grown, word % policy_model::FACTS);
        return Grew { set: grown, next };
    }
    for _ in 0..policy_model::arms_of(word) {
        let child = collect_condition_facts(words, next, depth - 1, grown);
        grown = child.set;
        next = child.next;
    }
    Grew { set: grown, next }
}

// Adds the facts of what stands in a policy before its arms, and returns the index of the word after that. Stored decisions name nothing: they end after
// their own words. Kinds are numbers, as policy_model says.
#[tactic(auto, using(crate::proofs::Policies::own_words))]
fn collect_own_facts(words: &[u32], at: usize, set: &mut FactSet) -> usize
    requires { at < length words.now }
    ensures facts { OwnFacts (λ ws. read_condition 31 ws) (policy_head (get_or words.now at 0) true) (drop (at + 1) words.now) at set.old set.new result }
    ensures forward { at < result }
{
    let kind = words[at] / policy_model::KIND;
    if kind == policy_model::KIND_GRANT {
        let before = grant::before_condition_in(words, at) as usize;
        let Grew { set: grown, next } = collect_condition_facts(
            words,
            at + before,
            grant::CONDITION_LEVELS,
            *set,
        );
        *set = grown;
        return next;
    }
    // nodes of one word: `own_of` would look at the kind again
    if kind < policy_model::KIND_PERMIT_WITH_TRACE {
        return at + 1;
    }
    at + 1 + policy_model::own_of(words, at)
}

// The facts of the policy at `at`, which ends with the words. These were checked before, so its nodes need no level: each is seen as it comes.
#[tactic(auto, using(crate::proofs::Nodes::policy_walks))]
fn collect_policy_facts(words: &[u32], at: usize) -> FactSet
    ensures { SetOf (policy_at words.now at levels) result }
{
    let mut set = [0u64; fact_set::NUMBERS];
    let mut next = at;
    // no `for`, since the nodes have many lengths
    while next < words.len() {
        next = collect_own_facts(words, next, &mut set);
    }
    set
}

// How many bits of the set are one.
fn count_ones(set: &FactSet) -> u32
    ensures { result ≡ ones set.now }
{
    let mut count = 0;
    for number in set {
        count += number.count_ones();
    }
    count
}

// Makes a lent set another. One that has fewer numbers, or more, is left as it was.
fn replace(set: &mut [u64], facts: &FactSet)
    ensures { set.new ≡ set_after set.old facts.now }
{
    if set.len() == fact_set::NUMBERS {
        set.copy_from_slice(facts);
    }
}

// Makes the set that of the facts of the policy at `at`, and counts them.
#[tactic(auto, using(crate::proofs::Nodes::facts_given))]
fn facts_at(words: &[u32], at: usize, set: &mut [u64]) -> u32
    ensures { FactsOf (policy_at words.now at levels) set.old set.new result }
{
    let facts = collect_policy_facts(words, at);
    replace(set, &facts);
    count_ones(&facts)
}

// No fact: an empty set.
fn no_facts(set: &mut [u64])
    ensures { set.new ≡ set_after set.old (replicate 16 0) }
{
    replace(set, &[0; fact_set::NUMBERS]);
}

// The facts that a sheet names: their set, and their count. Refused, the set is empty, as it is before the check. A set that has fewer numbers, or
// more, is left as it was.
pub fn required_facts(sheet: &[u32], set: &mut [u64]) -> Result<u32, Refusal>
    ensures { Answered (required_facts sheet.now) (read_sheet sheet.now) set.old set.new result }
{
    no_facts(set);
    policy_model::check_sheet(sheet, outcome::SETS)?;
    Ok(facts_at(sheet, 0, set))
}

// The facts that a record's tree names: their set, and their count. A Resolved record names none. Refused, the set is empty. A set that has
// fewer numbers, or more, is left as it was.
pub fn required_residual_facts(words: &[u32], set: &mut [u64]) -> Result<u32, Refusal>
    ensures { Answered (required_residual_facts words.now) (tree_of (read_record words.now)) set.old set.new result }
{
    no_facts(set);
    let head = policy_model::check_record(words, outcome::SETS)?;
    match head.status {
        Status::Resolved => Ok(0),
        Status::Pending => Ok(facts_at(words, head.tree, set)),
    }
}
