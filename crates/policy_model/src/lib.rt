// Policies as words, after gatekeep's policy_model.rs: what one word says, whether words hold a sheet or a record, and how far a tree reaches.
#![tactic(auto)]

ghost use Rattle.std.specs.Prelude.{◌≡◌, Bool, eqb, Option, IfSome, IfOk, Result, Ok, List, ℕ, ◌+◌, ◌-◌, ◌/◌, ◌%◌, ◌^◌, ◌<◌, ◌≤◌, length, drop, get_or};
ghost use Rattle.model.specs.Fields.{bits, split, words_for};
ghost use Rattle.model.specs.Outcome.{outcome_bits, below};
ghost use Rattle.model.specs.Condition.{cnil, ccons};
ghost use Rattle.model.specs.Policy.{pnil, pcons};
ghost use Rattle.model.specs.Writing.{count_bits, obligation_bits, entry_bits};
ghost use Rattle.model.specs.Reading.{many, read_list, obligation, listed, consulted, read_condition, levels, record_words, sheet_number, whole};
ghost use Rattle.model.specs.Reading as reading;
ghost use Rattle.model.specs.Products.{read_policy};
ghost use Rattle.laws.specs.Size.{quads, pairs, words_c, words_cs, words_d, words as words_t, wordss as words_ts};
ghost use Rattle.policy_model.specs.Heads.{condition_head, deep_condition, shape_by, permit_head, grant_head, permit_trace_head, deny_trace_head, policy_head, within_most, deep_policy, grant_node, permit_trace_node, deny_trace_node};
ghost use Rattle.policy_model.specs.Plain.{plain_grant};
ghost use Rattle.policy_model.specs.Lists.{seen_all, entry_fits, pair_fits, mark_fits, marks_fit, checked_marks, checked_pairs};
ghost use Rattle.policy_model.specs.Answers.{WordOrEnd, checked, Lists, Stepped, at_end, refusal, body_at, words_b, lead_of, record_lead};
ghost use Rattle.refusal.specs.Numbers.{number_of, by_number, refused};
ghost use Rattle.policy_model.specs.Short.{condition_limits, is_condition};
ghost use Rattle.policy_model.specs.Span.{arms_of, own_of, span, Skipped, SkippedConditions};

use refusal::Refusal;

// ---- the format: kinds, fields and limits

// A word's kind stands above its other 28 bits. All sixteen values are kinds. Most matches are by kind, but leads, tests by order and tests of two fields
// at once are sums of kinds, so an enum would stand beside these numbers and not in their place.
pub const KIND: u32 = 268435456;

// Conditions.
pub const KIND_ALWAYS: u32 = 0;

pub const KIND_NEVER: u32 = 1;

pub const KIND_HAS: u32 = 2;

pub const KIND_NOT: u32 = 3;

pub const KIND_CONDITION_ALL: u32 = 4;

pub const KIND_CONDITION_ANY: u32 = 5;

// Policies.
pub const KIND_PERMIT: u32 = 6;

pub const KIND_DENY: u32 = 7;

pub const KIND_GRANT: u32 = 8;

pub const KIND_POLICY_ALL: u32 = 9;

pub const KIND_POLICY_ANY: u32 = 10;

pub const KIND_OR_ELSE: u32 = 11;

pub const KIND_PERMIT_WITH_TRACE: u32 = 12;

pub const KIND_DENY_WITH_TRACE: u32 = 13;

// Records.
pub const KIND_RESOLVED: u32 = 14;

pub const KIND_PENDING: u32 = 15;

// A first word whose other bits are 0.
pub const LEAD_HAS: u32 = KIND_HAS * KIND;

pub const LEAD_NOT: u32 = KIND_NOT * KIND;

pub const LEAD_CONDITION_ALL: u32 = KIND_CONDITION_ALL * KIND;

pub const LEAD_CONDITION_ANY: u32 = KIND_CONDITION_ANY * KIND;

pub const LEAD_POLICY_ALL: u32 = KIND_POLICY_ALL * KIND;

pub const LEAD_POLICY_ANY: u32 = KIND_POLICY_ANY * KIND;

pub const LEAD_OR_ELSE: u32 = KIND_OR_ELSE * KIND;

pub const LEAD_PERMIT_WITH_TRACE: u32 = KIND_PERMIT_WITH_TRACE * KIND;

pub const LEAD_DENY_WITH_TRACE: u32 = KIND_DENY_WITH_TRACE * KIND;

pub const LEAD_RESOLVED: u32 = KIND_RESOLVED * KIND;

pub const LEAD_PENDING: u32 = KIND_PENDING * KIND;

// Obligations, a quarter of a word; facts, 10 bits; counts of arms and facts, 12 bits; outcomes, entries, labels and reasons, half a word.
pub const QUARTER: u32 = 256;

pub const FACTS: u32 = 1024;

pub const COUNTS: u32 = 4096;

pub const HALF: u32 = 65536;

pub const THREE_QUARTERS: u32 = HALF * QUARTER;

// A sheet's number, half a word as well, stands in a record's lead between its kind and its count. Any number may be handed over, and is judged: so it stays
// one, and no type.
pub const SHEET_NUMBERS: u32 = HALF;

// The shape of a Grant and of a DenyWithTrace; whether a DenyWithTrace has an outcome.
pub const HIDDEN: u32 = 134217728;

pub const DENIED: u32 = 67108864;

// A count of obligations, 7 bits, stands above the other 20.
pub const OBLIGATIONS: u32 = 1048576;

pub const OBLIGATION_COUNTS: u32 = 128;

// The most obligations of a Grant.
pub const MOST_OBLIGATIONS: u32 = 64;

// An obligation is a number below this.
pub const OBLIGATION_NUMBERS: u32 = 64;

// Whether a label or a reason is present, above its 15 bits; the presence of an entry, above its fact and four zero bits.
pub const MARKED: u32 = 32768;

pub const PRESENCE: u32 = facts::ABOVE_FACT;

// The bits between an outcome and the shape, the obligation count, and the bit of a denied outcome.
const BELOW_SHAPE: u32 = HIDDEN / HALF;

const BELOW_OBLIGATIONS: u32 = OBLIGATIONS / HALF;

const BELOW_DENIED: u32 = DENIED / HALF;

// What stands above a Has's fact, a Permit's outcome, and an All's or an Any's count: the kind, and zero bits.
pub const HAS: u32 = KIND_HAS * (KIND / FACTS);

pub const PERMIT: u32 = KIND_PERMIT * (KIND / HALF);

const ALL: u32 = KIND_POLICY_ALL * (KIND / COUNTS);

const ANY: u32 = KIND_POLICY_ANY * (KIND / COUNTS);

// The levels of a tree, the words of a sheet and of a record, and the facts or entries of a list, at most. A depth is a plain number, and its bound is asked
// where it matters: a type of its own would be taken apart at each `depth - 1`.
pub const LEVELS: usize = 32;

pub const SHEET_WORDS: usize = 4096;

pub const RECORD_WORDS: usize = 16384;

pub const MOST_LISTED: usize = 4095;

// Tables by kind, since a branch on a kind is often mispredicted. What a condition's other bits are below: 0 for what is none.
const CONDITION_LIMITS: [u32; 16] = [1, 1, FACTS, 1, COUNTS, COUNTS, 0, 0, 0, 0, 0, 0, 0, 0, 0, 0];

// The bits that count arms, and the arms that no bit counts.
const COUNT: u32 = COUNTS - 1;

const COUNTED_ARMS: [u32; 16] = [
    0, 0, 0, 0, COUNT, COUNT, 0, 0, 0, COUNT, COUNT, 0, 0, 0, 0, 0,
];

const FIXED_ARMS: [u32; 16] = [0, 0, 0, 1, 0, 0, 0, 0, 1, 0, 0, 2, 0, 0, 0, 0];

// The nodes of a short condition, at most: a long one is counted so far in vain.
const SHORT: usize = 64;

// The value at `at`, or `past`, past the end.
pub fn value_at<T: Copy>(values: &[T], at: usize, past: T) -> T
    ensures { result ≡ get_or values.now at past }
{
    if at < values.len() { values[at] } else { past }
}

// The word at `at`, 0 past the end.
pub fn word_at(words: &[u32], at: usize) -> u32
    ensures { result ≡ get_or words.now at 0 }
{
    value_at(words, at, 0)
}

// The word at `at`, or the refusal of words that have ended.
fn word_or_end(words: &[u32], at: usize) -> Result<u32, Refusal>
    ensures { WordOrEnd words.now at result }
{
    words.get(at).copied().ok_or(Refusal::WordsEnd)
}

// How many obligations a Grant or a PermitWithTrace has, by its first word.
pub fn obligations_of(word: u32) -> u32
    ensures { result ≡ bits (4 + outcome_bits) 7 word }
{
    word / OBLIGATIONS % OBLIGATION_COUNTS
}

// The outcome in the last half of a first word.
pub fn outcome_of(word: u32) -> u16
    ensures { result ≡ word % 2 ^ outcome_bits }
{
    (word % HALF) as u16
}

// How many words so many obligations take, four a word. A function for each width, and one line each: one over both would take the width, and each of its
// uses would say it again.
pub fn obligation_words(count: u32) -> usize
    ensures { result ≡ words_for 4 count }
{
    (count as usize + 3) / 4
}

// How many words so many facts or entries take, two a word. A function of its own, as `obligation_words` says.
pub fn entry_words(count: u32) -> usize
    ensures { result ≡ words_for 2 count }
{
    (count as usize + 1) / 2
}

// What the first word of a condition says. What is no condition's stays a case here and in `PolicyHead`: most walks read words that were checked, and answer
// it as words that don't read, so each would unwrap a Result for the check alone.
#[derive(Drop)]
pub enum ConditionHead {
    Always,
    Never,
    Has(u32),
    Not,
    All(u32),
    Any(u32),
    // no kind of a condition
    BadKind,
    // a field that must be 0 isn't
    BadField,
}

// How much a denial tells of what it protects.
#[derive(Clone, Copy, PartialEq, Eq)]
pub enum DenyShape {
    Forbidden,
    Hidden,
}

// What the first word of a policy says.
#[derive(Clone, Copy)]
pub enum PolicyHead {
    Permit(u16),
    Deny,
    Grant {
        shape: DenyShape,
        obligations: u32,
        outcome: u16,
    },
    All(u32),
    Any(u32),
    OrElse,
    PermitWithTrace {
        obligations: u32,
        outcome: u16,
    },
    DenyWithTrace {
        shape: DenyShape,
        denied: Option<u16>,
    },
    // no kind of a policy here
    BadKind,
    // a field that must be 0 isn't, or a Grant has over 64 obligations
    BadField,
}

// A condition's first word.
#[tactic(auto, unfolding(crate::specs::Heads::condition_head))]
pub fn condition_head(word: u32) -> ConditionHead
    ensures { result ≡ condition_head word }
{
    let rest = word % KIND;
    // a Has first, since most nodes are
    if word / FACTS == HAS {
        return ConditionHead::Has(rest);
    }
    match word / KIND {
        KIND_ALWAYS if rest == 0 => ConditionHead::Always,
        KIND_NEVER if rest == 0 => ConditionHead::Never,
        KIND_HAS if rest < FACTS => ConditionHead::Has(rest),
        KIND_NOT if rest == 0 => ConditionHead::Not,
        KIND_CONDITION_ALL if rest < COUNTS => ConditionHead::All(rest),
        KIND_CONDITION_ANY if rest < COUNTS => ConditionHead::Any(rest),
        KIND_ALWAYS..=KIND_CONDITION_ANY => ConditionHead::BadField,
        _ => ConditionHead::BadKind,
    }
}

// Permit: zero (12), outcome (16).
#[tactic(auto, unfolding(crate::specs::Heads::permit_head))]
fn permit_head(rest: u32) -> PolicyHead
    ensures { result ≡ permit_head rest }
{
    if rest / HALF == 0 {
        PolicyHead::Permit(outcome_of(rest))
    } else {
        PolicyHead::BadField
    }
}

// The shape, by the first of the 28 bits below the kind.
fn shape_of(rest: u32) -> DenyShape
    ensures { result ≡ shape_by (eqb (rest / 2 ^ (1 + 10 + outcome_bits)) 1) }
{
    if rest / HIDDEN == 1 {
        DenyShape::Hidden
    } else {
        DenyShape::Forbidden
    }
}

// Grant: shape (1), obligation count (7), zero (4), outcome (16).
#[tactic(auto, unfolding(crate::specs::Heads::grant_head))]
fn grant_head(rest: u32) -> PolicyHead
    ensures { result ≡ grant_head rest }
{
    let obligations = obligations_of(rest);
    if obligations > MOST_OBLIGATIONS || rest / HALF % BELOW_OBLIGATIONS != 0 {
        return PolicyHead::BadField;
    }
    PolicyHead::Grant {
        shape: shape_of(rest),
        obligations,
        outcome: outcome_of(rest),
    }
}

// PermitWithTrace: as Grant, shape 0, and as many obligations as seven bits can say.
#[tactic(auto, unfolding(crate::specs::Heads::permit_trace_head))]
fn permit_trace_head(rest: u32) -> PolicyHead
    ensures { result ≡ permit_trace_head rest }
{
    if rest / HIDDEN != 0 || rest / HALF % BELOW_OBLIGATIONS != 0 {
        return PolicyHead::BadField;
    }
    PolicyHead::PermitWithTrace {
        obligations: obligations_of(rest),
        outcome: outcome_of(rest),
    }
}

// DenyWithTrace: shape (1), denied present (1), zero (10), outcome (16; 0 if not present).
#[tactic(auto, unfolding(crate::specs::Heads::deny_trace_head))]
fn deny_trace_head(rest: u32) -> PolicyHead
    ensures { result ≡ deny_trace_head rest }
{
    if rest / HALF % BELOW_DENIED != 0 {
        return PolicyHead::BadField;
    }
    let shape = shape_of(rest);
    let outcome = outcome_of(rest);
    if rest / DENIED % 2 == 1 {
        return PolicyHead::DenyWithTrace {
            shape,
            denied: Some(outcome),
        };
    }
    if outcome == 0 {
        PolicyHead::DenyWithTrace {
            shape,
            denied: None,
        }
    } else {
        PolicyHead::BadField
    }
}

// A policy's first word, by its kind. Kinds 12 and 13 stand in residuals only. A function of its own when compiled, so that the few tests of `policy_head`
// go into each walk.
#[inline(never)]
#[tactic(auto, unfolding(crate::specs::Heads::policy_head))]
fn head_by_kind(word: u32, residual: bool) -> PolicyHead
    ensures { result ≡ policy_head word residual }
{
    let rest = word % KIND;
    match word / KIND {
        KIND_PERMIT => permit_head(rest),
        KIND_DENY if rest == 0 => PolicyHead::Deny,
        KIND_GRANT => grant_head(rest),
        KIND_POLICY_ALL if rest < COUNTS => PolicyHead::All(rest),
        KIND_POLICY_ANY if rest < COUNTS => PolicyHead::Any(rest),
        KIND_OR_ELSE if rest == 0 => PolicyHead::OrElse,
        KIND_PERMIT_WITH_TRACE if residual => permit_trace_head(rest),
        KIND_DENY_WITH_TRACE if residual => deny_trace_head(rest),
        KIND_DENY | KIND_POLICY_ALL..=KIND_OR_ELSE => PolicyHead::BadField,
        _ => PolicyHead::BadKind,
    }
}

// A policy's first word. A Permit, a Grant, an All and an Any, the commonest, are told by a test each: a table of the kinds costs more than it answers.
// `residual` is a flag: it chooses no step, and only says in two guards whether kinds 12 and 13 are read. An enum would say the same yes or no at each call,
// by another name, and be turned back into the flag of the definitions, `read_policy residual`.
#[tactic(auto, unfolding(crate::specs::Heads::policy_head, crate::specs::Heads::permit_head))]
pub fn policy_head(word: u32, residual: bool) -> PolicyHead
    ensures { result ≡ policy_head word residual }
{
    if word / HALF == PERMIT {
        return PolicyHead::Permit(outcome_of(word));
    }
    if word / KIND == KIND_GRANT {
        return grant_head(word % KIND);
    }
    if word / COUNTS == ALL {
        return PolicyHead::All(word % COUNTS);
    }
    if word / COUNTS == ANY {
        return PolicyHead::Any(word % COUNTS);
    }
    head_by_kind(word, residual)
}

// Whether a Grant without label, reason and obligations, on one fact, stands at `at`: the commonest policy, told by its three words.
#[tactic(auto, unfolding(crate::specs::Plain::plain_grant))]
pub fn plain_grant(words: &[u32], at: usize) -> bool
    requires { at < length words.now }
    ensures { result ≡ plain_grant (drop at words.now) }
{
    if words.len() - at < 3 {
        return false;
    }
    let word = words[at];
    // neither obligations nor a bit that must be 0
    word / KIND == KIND_GRANT
        && word / HALF % BELOW_SHAPE == 0
        && words[at + 1] == 0
        && words[at + 2] / FACTS == HAS
}

// The bits of a quarter that no obligation has, and those of a word that must be 0, by how many obligations are to come: none, one, two, three, or more. What
// follows the last one is 0.
const NO_OBLIGATION: u32 = QUARTER - OBLIGATION_NUMBERS;

const NO_OBLIGATIONS: [u32; 5] = [
    u32::MAX,
    NO_OBLIGATION * THREE_QUARTERS + (THREE_QUARTERS - 1),
    NO_OBLIGATION * (THREE_QUARTERS + HALF) + (HALF - 1),
    NO_OBLIGATION * (THREE_QUARTERS + HALF + QUARTER) + (QUARTER - 1),
    NO_OBLIGATION * (THREE_QUARTERS + HALF + QUARTER + 1),
];

// One more word of a list of obligations, of which `left` are to come: how many are, after it.
fn with_word(left: u32, word: u32) -> Result<u32, Refusal>
    ensures { by_number result ≡ seen_all (Ok left) (split obligation_bits 4 word) }
{
    if word & NO_OBLIGATIONS[left.min(4) as usize] == 0 {
        Ok(left.saturating_sub(4))
    } else {
        Err(Refusal::Field)
    }
}

// Checks a list of `count` obligations from `at`. Each word is looked for in its turn, since WordsEnd comes after any Field in the words before it.
#[tactic(auto, using(crate::proofs::Quads::walks))]
fn check_obligations(words: &[u32], at: usize, count: u32) -> Result<usize, Refusal>
    requires { at ≤ length words.now }
    ensures is { by_number result ≡ checked quads at (read_list obligation obligation_bits count (drop at words.now)) }
    ensures within { IfOk result (λ end. end ≤ length words.now) }
{
    let end = at + obligation_words(count);
    let mut left = count;
    for next in at..end {
        left = with_word(left, word_or_end(words, next)?)?;
    }
    Ok(end)
}

// Whether a field is an entry whose presence is below `presences`: presence (2), zero (4), fact (10).
#[tactic(auto, unfolding(crate::specs::Lists::entry_fits))]
fn entry_fits(field: u32, presences: u32) -> bool
    ensures { result ≡ entry_fits presences field }
{
    field / PRESENCE < presences && field % PRESENCE < FACTS
}

// Whether the two fields of a word are such entries, of which `left` are to come. After the last one a field must be 0.
#[tactic(auto, unfolding(crate::specs::Lists::pair_fits))]
fn pair_fits(word: u32, left: u32, presences: u32) -> bool
    ensures { result ≡ pair_fits presences left word }
{
    if !entry_fits(word / HALF, presences) {
        return false;
    }
    if left == 1 {
        word % HALF == 0
    } else {
        entry_fits(word % HALF, presences)
    }
}

// Checks a list of `count` such entries from `at`, two a word, each in its turn as in `check_obligations`.
#[tactic(auto, using(crate::proofs::Pairs::pair_walks))]
fn check_pairs(words: &[u32], at: usize, count: u32, presences: u32) -> Result<usize, Refusal>
    requires { at ≤ length words.now }
    ensures { by_number result ≡ checked_pairs presences at (drop at words.now) count }
{
    let end = at + entry_words(count);
    let mut left = count;
    for next in at..end {
        if !pair_fits(word_or_end(words, next)?, left, presences) {
            return Err(Refusal::Field);
        }
        left = left.saturating_sub(2);
    }
    Ok(end)
}

// Checks a list of `count` facts from `at`: entries with presence 0.
#[tactic(auto, using(crate::proofs::Pairs::facts_checked))]
fn check_facts(words: &[u32], at: usize, count: u32) -> Result<usize, Refusal>
    requires { at ≤ length words.now }
    ensures { by_number result ≡ checked pairs at (read_list listed entry_bits count (drop at words.now)) }
{
    check_pairs(words, at, count, 1)
}

// Checks a list of `count` consulted entries from `at`. Not one function with `check_facts`: that is `check_pairs`, and each has its own reading to answer for.
#[tactic(auto, using(crate::proofs::Pairs::entries_checked))]
fn check_entries(words: &[u32], at: usize, count: u32) -> Result<usize, Refusal>
    requires { at ≤ length words.now }
    ensures { by_number result ≡ checked pairs at (read_list consulted entry_bits count (drop at words.now)) }
{
    check_pairs(words, at, count, facts::PRESENCES)
}

// Whether 16 bits are a label or a reason: present (1), then 15 bits; an absent one is 0.
#[tactic(auto, unfolding(crate::specs::Lists::mark_fits))]
fn mark_fits(half: u32) -> bool
    ensures { result ≡ mark_fits half }
{
    half == 0 || half >= MARKED
}

// Whether a word is a label and a reason.
#[tactic(auto, unfolding(crate::specs::Lists::marks_fit))]
fn marks_fit(word: u32) -> bool
    ensures { result ≡ marks_fit word }
{
    mark_fits(word / HALF) && mark_fits(word % HALF)
}

// Checks the label and the reason at `at`, one word.
#[tactic(auto, unfolding(crate::specs::Lists::checked_marks))]
fn check_marks(words: &[u32], at: usize) -> Result<usize, Refusal>
    ensures { by_number result ≡ checked_marks at (drop at words.now) }
{
    if marks_fit(word_or_end(words, at)?) {
        Ok(at + 1)
    } else {
        Err(Refusal::Field)
    }
}

// The refusal of a condition below the last level. `deep_policy` is the same of a policy: there is one for each type of heads.
fn deep_condition(head: ConditionHead) -> Refusal
    ensures { number_of result ≡ deep_condition head }
{
    match head {
        ConditionHead::BadKind => Refusal::Kind,
        _ => Refusal::Level,
    }
}

// What a check finds at one node: the position after it, or how many arms follow its first word.
#[derive(Drop)]
enum Step {
    Leaf(usize),
    Arms(u32),
}

// Trees that are checked node by node: conditions, and policies.
trait Tree {
    // the words; what is asked of the node at a position, with so many levels left; and of so many nodes from there on
    ghost words: { Self → List ℕ };

    ghost one: { Self → ℕ → ℕ → Result ℕ ℕ };

    ghost all: { Self → ℕ → ℕ → ℕ → Result ℕ ℕ };

    // Checks the node at `at` up to its arms.
    fn step(&self, at: usize, depth: usize) -> Result<Step, Refusal>
        requires { depth ≤ levels }
        ensures { Stepped (words self.now) at depth (one self.now depth at) (λ n. all self.now (depth - 1) (at + 1) n) result };
}

// Checks the tree at `at`, of at most `depth` levels. One loop, since a call for each level costs more than the level itself: `left` nodes are due at `level`,
// and `above`, an array as there is no heap, says how many are due at each level above it. No `for`, since each node says where the next begins, and both
// counts change.
fn check_tree<T: Tree>(tree: &T, at: usize, depth: usize) -> Result<usize, Refusal>
    requires few { depth ≤ levels }
    requires counted { length (T.words tree.now) < 2 ^ 64 }
    requires lists { Lists (T.one tree.now) (T.all tree.now) }
    ensures { by_number result ≡ T.one tree.now depth at }
{
    let mut above = [0u32; LEVELS];
    let mut level = 0;
    let mut left: u32 = 1;
    let mut next = at;
    loop {
        if left == 0 {
            if level == 0 {
                return Ok(next);
            }
            level -= 1;
            left = above[level];
            continue;
        }
        match tree.step(next, depth - level)? {
            Step::Leaf(after) => {
                next = after;
                left -= 1;
            }
            Step::Arms(count) => {
                above[level] = left - 1;
                level += 1;
                next += 1;
                left = count;
            }
        }
    }
}

// Conditions as trees.
#[derive(Clone, Copy)]
struct ConditionTree<'a> {
    words: &'a [u32],
}

impl<'a> Tree for ConditionTree<'a> {
    ghost words = { λ x. x.words.now };

    ghost one = { λ x depth at. checked words_c at (read_condition depth (drop at x.words.now)) };

    ghost all = { λ x depth at n. checked words_cs at (many cnil ccons (read_condition depth) n (drop at x.words.now)) };

    #[inline(always)]
    fn step(&self, at: usize, depth: usize) -> Result<Step, Refusal> {
        let word = word_or_end(self.words, at)?;
        if depth == 0 {
            return Err(deep_condition(condition_head(word)));
        }
        let head = condition_head(word);
        match head {
            ConditionHead::Always | ConditionHead::Never | ConditionHead::Has(_) => {
                Ok(Step::Leaf(at + 1))
            }
            ConditionHead::Not => Ok(Step::Arms(1)),
            ConditionHead::All(count) | ConditionHead::Any(count) => Ok(Step::Arms(count)),
            ConditionHead::BadKind => Err(Refusal::Kind),
            ConditionHead::BadField => Err(Refusal::Field),
        }
    }
}

// What a condition's other bits are below, by its kind.
fn condition_limit(kind: u32) -> u32
    requires { kind < 16 }
    ensures { result ≡ get_or condition_limits kind 0 }
{
    CONDITION_LIMITS[kind as usize]
}

// Whether a word is the first one of a condition, with no field wrong.
#[tactic(auto, unfolding(crate::specs::Short::is_condition))]
fn is_condition(word: u32) -> bool
    ensures { result ≡ is_condition word }
{
    word % KIND < condition_limit(word / KIND)
}

// The position after the condition at `at`, if it is short, all its nodes are good, and fewer of them have arms than there are levels: then none is too deep,
// and it is enough to count the nodes that are due. A loop over levels often mispredicts the steps up.
fn short_condition(words: &[u32], at: usize, depth: usize) -> Option<usize>
    requires { depth ≤ levels }
    ensures { IfSome result (λ end. Ok end ≡ checked words_c at (read_condition depth (drop at words.now))) }
{
    let end = words.len().min(at.saturating_add(SHORT));
    let mut due: usize = 1;
    let mut levels = depth;
    for next in at..end {
        if levels == 0 || !is_condition(words[next]) {
            return None;
        }
        let arms = arms_of(words[next]) as usize;
        levels -= usize::from(arms != 0);
        due = due - 1 + arms;
        if due == 0 {
            return Some(next + 1);
        }
    }
    None
}

// Checks the condition at `at`, of at most `depth` levels. What the count doesn't pass is judged level by level.
fn check_condition(words: &[u32], at: usize, depth: usize) -> Result<usize, Refusal>
    requires { depth ≤ levels }
    ensures { by_number result ≡ checked words_c at (read_condition depth (drop at words.now)) }
{
    match short_condition(words, at, depth) {
        Some(end) => Ok(end),
        None => check_tree(&ConditionTree { words }, at, depth),
    }
}

// Checks what follows the first word of a Grant at `at`: label and reason, `obligations`, and one condition of at most `depth` levels.
fn check_grant(words: &[u32], at: usize, depth: usize, obligations: u32) -> Result<usize, Refusal>
    requires at_in_bounds { at < length words.now }
    requires depth_le_levels { depth ≤ levels }
    ensures { (shape : DenyShape) (outcome : ℕ) → by_number result ≡ checked words_t at (grant_node (read_condition depth) shape obligations outcome (drop (at + 1) words.now)) }
{
    let list = check_marks(words, at + 1)?;
    let next = check_obligations(words, list, obligations)?;
    check_condition(words, next, depth)
}

// Checks what follows the first word of a PermitWithTrace at `at`: label and count of facts, `obligations`, facts.
fn check_permit_with_trace(words: &[u32], at: usize, obligations: u32) -> Result<usize, Refusal>
    requires { at < length words.now }
    ensures { (outcome : ℕ) → by_number result ≡ checked words_d at (permit_trace_node obligations outcome (drop (at + 1) words.now)) }
{
    let second = word_or_end(words, at + 1)?;
    let facts = second % HALF;
    if !mark_fits(second / HALF) || facts >= COUNTS {
        return Err(Refusal::Field);
    }
    let next = check_obligations(words, at + 2, obligations)?;
    check_facts(words, next, facts)
}

// Checks what follows the first word of a DenyWithTrace at `at`: label and reason, count of facts, facts.
fn check_deny_with_trace(words: &[u32], at: usize) -> Result<usize, Refusal>
    requires { at < length words.now }
    ensures { (shape : DenyShape) (denied : Option ℕ) → by_number result ≡ checked words_d at (deny_trace_node shape denied (drop (at + 1) words.now)) }
{
    let third = check_marks(words, at + 1)?;
    let facts = word_or_end(words, third)?;
    if facts >= COUNTS {
        return Err(Refusal::Field);
    }
    check_facts(words, third + 1, facts)
}

// The refusal of a policy below the last level.
fn deep_policy(head: PolicyHead) -> Refusal
    ensures { number_of result ≡ deep_policy head }
{
    match head {
        PolicyHead::BadKind => Refusal::Kind,
        _ => Refusal::Level,
    }
}

// Whether a head's outcome is one of `most`: of a Permit, a Grant, a PermitWithTrace, and of a DenyWithTrace that has one.
fn within(head: PolicyHead, most: u32) -> bool
    ensures { result ≡ within_most most head }
{
    match head {
        // an arm for each of these: one for all copies the outcome first, by which the check of mixed words takes 4% more instructions
        PolicyHead::Permit(outcome) => (outcome as u32) < most,
        PolicyHead::Grant { outcome, .. } => (outcome as u32) < most,
        PolicyHead::PermitWithTrace { outcome, .. } => (outcome as u32) < most,
        PolicyHead::DenyWithTrace { denied, .. } => match denied {
            Some(outcome) => (outcome as u32) < most,
            None => true,
        },
        PolicyHead::Deny
        | PolicyHead::All(_)
        | PolicyHead::Any(_)
        | PolicyHead::OrElse
        | PolicyHead::BadKind
        | PolicyHead::BadField => true,
    }
}

// Policies as trees, of a residual or of a sheet, by a number of outcomes. A Grant's condition is no arm. `residual` is a flag, as at `policy_head`.
#[derive(Clone, Copy)]
struct PolicyTree<'a> {
    words: &'a [u32],
    residual: bool,
    most: u32,
}

impl<'a> PolicyTree<'a> {
    // The words of the policy at `at`, of at most `depth` levels, if it is a Permit or a plain grant, the commonest. So these are passed with no step.
    // The tests stand apart: joined by `&&` they are all taken for each Permit, and the required facts of a list of 4,095 take 29 µs in place of 17.
    // Compiled into the loop, as the steps are: with calls the check of a list of grants takes 7% more instructions.
    #[inline(always)]
    fn short_policy(&self, at: usize, depth: usize) -> Option<usize>
        ensures { IfSome result (λ n. (0 < n) × (at + n ≤ length self.now.words.now) × (Ok (at + n) ≡ checked words_t at (reading.read_policy (below self.now.most) self.now.residual depth (drop at self.now.words.now)))) }
    {
        let words = self.words;
        if words.len() <= at {
            return None;
        }
        if words[at] / HALF == PERMIT {
            if words[at] % HALF >= self.most {
                return None;
            }
            return if depth == 0 { None } else { Some(1) };
        }
        if depth < 2 {
            return None;
        }
        if plain_grant(words, at) {
            if words[at] % HALF < self.most {
                Some(3)
            } else {
                None
            }
        } else {
            None
        }
    }

    // Checks the policy at `at` up to its arms, whichever it is.
    fn policy_step(&self, at: usize, depth: usize) -> Result<Step, Refusal>
        requires { depth ≤ levels }
        ensures { Stepped self.now.words.now at depth (checked words_t at (reading.read_policy (below self.now.most) self.now.residual depth (drop at self.now.words.now))) (λ n. checked words_ts (at + 1) (many pnil pcons (reading.read_policy (below self.now.most) self.now.residual (depth - 1)) n (drop (at + 1) self.now.words.now))) result }
    {
        let words = self.words;
        let word = word_or_end(words, at)?;
        if depth == 0 {
            return Err(deep_policy(head_by_kind(word, self.residual)));
        }
        let head = policy_head(word, self.residual);
        if !within(head, self.most) {
            return Err(Refusal::Field);
        }
        match head {
            PolicyHead::Permit(_) | PolicyHead::Deny => Ok(Step::Leaf(at + 1)),
            PolicyHead::Grant { obligations, .. } => {
                let after = check_grant(words, at, depth - 1, obligations)?;
                Ok(Step::Leaf(after))
            }
            PolicyHead::All(count) | PolicyHead::Any(count) => Ok(Step::Arms(count)),
            PolicyHead::OrElse => Ok(Step::Arms(2)),
            PolicyHead::PermitWithTrace { obligations, .. } => {
                let after = check_permit_with_trace(words, at, obligations)?;
                Ok(Step::Leaf(after))
            }
            PolicyHead::DenyWithTrace { .. } => {
                let after = check_deny_with_trace(words, at)?;
                Ok(Step::Leaf(after))
            }
            PolicyHead::BadKind => Err(Refusal::Kind),
            PolicyHead::BadField => Err(Refusal::Field),
        }
    }
}

impl<'a> Tree for PolicyTree<'a> {
    ghost words = { λ x. x.words.now };

    ghost one = { λ x depth at. checked words_t at (reading.read_policy (below x.most) x.residual depth (drop at x.words.now)) };

    ghost all = { λ x depth at n. checked words_ts at (many pnil pcons (reading.read_policy (below x.most) x.residual depth) n (drop at x.words.now)) };

    #[inline(always)]
    fn step(&self, at: usize, depth: usize) -> Result<Step, Refusal> {
        if let Some(short) = self.short_policy(at, depth) {
            return Ok(Step::Leaf(at + short));
        }
        self.policy_step(at, depth)
    }
}

// Checks the policy at `at`, of at most `depth` levels, its conditions among them.
fn check_policy(
    words: &[u32],
    at: usize,
    depth: usize,
    residual: bool,
    most: u32,
) -> Result<usize, Refusal>
    requires { depth ≤ levels }
    ensures { by_number result ≡ checked words_t at (reading.read_policy (below most) residual depth (drop at words.now)) }
{
    let tree = PolicyTree {
        words,
        residual,
        most,
    };
    check_tree(&tree, at, depth)
}

// Nothing may stand after what was checked.
#[tactic(auto, unfolding(crate::specs::Answers::at_end))]
fn to_the_end(next: usize, length: usize) -> Result<usize, Refusal>
    ensures { by_number result ≡ at_end length (Ok next) }
{
    if next < length {
        Err(Refusal::WordsAfterTree)
    } else {
        Ok(next)
    }
}

// Checks a sheet: 1 to 4,096 words, one tree of at most 32 levels.
#[tactic(auto, using(crate::proofs::Whole::sheet_lengths))]
pub fn check_sheet(words: &[u32], most: u32) -> Result<(), Refusal>
    ensures { refused result ≡ refusal (reading.read_sheet (below most) words.now) }
{
    if words.len() == 0 || words.len() > SHEET_WORDS {
        return Err(Refusal::Length);
    }
    let next = check_policy(words, 0, LEVELS, false, most)?;
    to_the_end(next, words.len())?;
    Ok(())
}

// Checks the tree of a Resolved record: one node 12 or 13.
#[tactic(auto, using(crate::proofs::Whole::one_nodes))]
fn check_resolved(words: &[u32], at: usize, most: u32) -> Result<usize, Refusal>
    ensures { by_number result ≡ checked words_b at (reading.parse14 (below most) (drop at words.now)) }
{
    if word_or_end(words, at)? / KIND < KIND_PERMIT_WITH_TRACE {
        return Err(Refusal::Kind);
    }
    check_policy(words, at, 1, true, most)
}

// Whether a record is decided.
#[derive(Clone, Copy)]
pub enum Status {
    Resolved,
    Pending,
}

// A record's lead, and the position where its tree begins.
#[derive(Clone, Copy)]
pub struct RecordHead {
    pub status: Status,
    pub consulted: u32,
    pub tree: usize,
}

// Checks the tree of a record, to the last word.
#[tactic(auto, using(crate::proofs::Whole::bodies), unfolding(crate::specs::Answers::at_end))]
fn check_body(words: &[u32], at: usize, status: Status, most: u32) -> Result<usize, Refusal>
    ensures { by_number result ≡ checked words_b at (whole (body_at most status (drop at words.now))) }
{
    match status {
        Status::Resolved => to_the_end(check_resolved(words, at, most)?, words.len()),
        Status::Pending => to_the_end(check_policy(words, at, LEVELS, true, most)?, words.len()),
    }
}

// Checks a record: 1 to 16,384 words; the lead, the consulted entries, one residual tree of at most 32 levels.
#[tactic(auto, using(crate::proofs::Whole::record_lengths))]
pub fn check_record(words: &[u32], most: u32) -> Result<RecordHead, Refusal>
    ensures { record_lead result ≡ lead_of (reading.read_record (below most) words.now) }
{
    if words.len() == 0 || words.len() > RECORD_WORDS {
        return Err(Refusal::Length);
    }
    let status = match words[0] / KIND {
        KIND_RESOLVED => Status::Resolved,
        KIND_PENDING => Status::Pending,
        _ => return Err(Refusal::Kind),
    };
    let consulted = words[0] % COUNTS;
    let tree = check_entries(words, 1, consulted)?;
    check_body(words, tree, status, most)?;
    Ok(RecordHead {
        status,
        consulted,
        tree,
    })
}

// The number of a record's sheet, in its lead; 0 where there is no word.
pub fn sheet_number(words: &[u32]) -> u32
    ensures { result ≡ sheet_number words.now }
{
    word_at(words, 0) / COUNTS % SHEET_NUMBERS
}

// The arms that a first word opens, of a condition or a policy; a Grant's condition is one.
#[tactic(auto, unfolding(crate::specs::Span::arms_of))]
pub fn arms_of(word: u32) -> u32
    ensures { result ≡ arms_of word }
{
    let kind = (word / KIND) as usize;
    (word & COUNTED_ARMS[kind]) + FIXED_ARMS[kind]
}

// The words of the facts that the word at `at` counts in its last 12 bits.
fn facts_at(words: &[u32], at: usize) -> usize
    ensures facts { result ≡ words_for 2 (get_or words.now at 0 % 2 ^ count_bits) }
    ensures few { result ≤ 2048 }
{
    entry_words(word_at(words, at) % COUNTS)
}

// The words of the node at `at` itself after its first one. A condition has none.
#[tactic(auto, unfolding(crate::specs::Span::own_of))]
pub fn own_of(words: &[u32], at: usize) -> usize
    requires { at < length words.now }
    ensures own { result ≡ own_of (get_or words.now at 0) (drop (at + 1) words.now) }
    ensures few { result ≤ 4096 }
{
    let word = words[at];
    let kind = word / KIND;
    if kind < KIND_GRANT {
        return 0;
    }
    match kind {
        KIND_GRANT => obligation_words(obligations_of(word)) + 1,
        KIND_PERMIT_WITH_TRACE => {
            obligation_words(obligations_of(word)) + facts_at(words, at + 1) + 1
        }
        KIND_DENY_WITH_TRACE => facts_at(words, at + 2) + 2,
        _ => 0,
    }
}

// The position after `count` trees from `at`, by a count of open nodes: a node closes itself and opens its arms. With as many open as words are left, all
// words are theirs.
#[tactic(auto, using(crate::proofs::Skipping::skips))]
fn skip_nodes(words: &[u32], at: usize, count: u32) -> usize
    ensures { result ≡ at + span (drop at words.now) 0 count }
{
    if words.len() < at {
        return at;
    }
    let mut next = at;
    let mut nodes = count as usize;
    // by the nodes that are open, since each says how far it reaches: a `for` is no plainer
    while nodes != 0 {
        if words.len() - next <= nodes {
            return words.len();
        }
        nodes = nodes - 1 + (arms_of(words[next]) as usize);
        next = next + 1 + own_of(words, next);
        if words.len() < next {
            return words.len();
        }
    }
    next
}

// The position after `count` conditions from `at` that read there.
#[tactic(auto, using(crate::proofs::Skipping::skipped_conditions))]
pub fn skip_conditions(words: &[u32], at: usize, count: u32) -> usize
    ensures { SkippedConditions words.now at count result }
{
    skip_nodes(words, at, count)
}

// The position after `count` policies from `at` that read there. Not one function with `skip_conditions`: both are `skip_nodes`, each with its own reading.
pub fn skip_policies(words: &[u32], at: usize, count: u32) -> usize
    requires { length words.now ≤ record_words }
    ensures { (depth : ℕ) (residual : Bool) → Skipped words_ts at (many pnil pcons (read_policy residual depth) count (drop at words.now)) result }
{
    skip_nodes(words, at, count)
}
