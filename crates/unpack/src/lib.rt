// Sheets and records from the tight form. Bits are checked field by field, with the levels of the tree; checked bits are a flat list of nodes, so
// restoring their words is a loop without levels.
#![tactic(auto)]

ghost use Rattle.std.specs.Prelude.{◌≡◌, Bool, true, false, Some, ◌&&◌, List, ℕ, suc, ◌+◌, ◌-◌, ◌*◌, ◌/◌, ◌^◌, ◌≤◌, ◌<◌, ltb, length, drop, get_or};
ghost use Rattle.model.specs.Fields.{joined, words_for};
ghost use Rattle.model.specs.Reading.{levels, Parsed, got};
ghost use Rattle.model.specs.Products.{last_kind, resolved_in, loose_r, unpack_sheet, unpack_record};
ghost use Rattle.model.specs.Bits.{run_of};
ghost use Rattle.model.specs.Tight.{tight_bytes, obligation_tight_bits, zeros, filled};
ghost use Rattle.model.specs.Writing.{obligation_bits};
ghost use Rattle.laws.specs.FieldAt.{Narrow};
ghost use Rattle.policy_model.specs.Span.{arms_of};
ghost use Rattle.bits.specs.Widths.{has_lists, plain_node_width};
ghost use Rattle.packing.specs.Written.{Written};
ghost use Rattle.refusal.specs.Numbers.{by_number, refused};
ghost use Rattle.answer.specs.Answers.{Answered};
ghost use Rattle.unpack.specs.Nodes.{field_in, fields_in, mark_in, loose_entry, lead_in, plain_word, grant_node, permit_node, deny_first, deny_node, list_node, node_length, node_count, Small, obligation_words, entry_words, fixed_words, node_words, kind_in, restored, tree_at, restored_record};
ghost use Rattle.unpack.specs.Answers.{ended, lead_read, sized, Says, one_condition, all_conditions, one_policy, all_policies, words_b, words_u, judged};
ghost use Rattle.unpack.specs.Levels.{Lists};
ghost use Rattle.unpack.specs.StepLaws.{condition_lists, policy_lists};

use answer::Answer;
use refusal::Refusal;

// A tight form has at most as many bytes.
const TIGHT_BYTES: usize = 65536;

// A node with lists: its first words put together, two or three, the bits that they take, and how many obligations and facts follow. Past the end bits are 0.
// That the counts are small (`Small`) is a clause and no ghost field: each definition that makes a `Node` would carry the proof.
#[derive(Clone, Copy)]
struct Node {
    first: u32,
    second: u32,
    third: Option<u32>,
    width: usize,
    obligations: u32,
    facts: u32,
}

// The bits that hold the kind and the other field of a node without lists.
const PLAIN_BITS: u32 = bits::KIND_BITS + bits::OUTCOME_BITS;

// Where the outcome of a node with lists begins, and its label.
const GRANT_OUTCOME: usize = bits::GRANT_LEAD_BITS as usize;

const GRANT_LABEL: usize = GRANT_OUTCOME + bits::OUTCOME_BITS as usize;

const PERMIT_OUTCOME: usize = bits::PERMIT_WITH_TRACE_LEAD_BITS as usize;

const PERMIT_LABEL: usize = PERMIT_OUTCOME + bits::OUTCOME_BITS as usize;

const DENY_OUTCOME: usize = bits::DENY_WITH_TRACE_LEAD_BITS as usize;

// Where a Grant's obligations begin: without label and reason, with one of them, with both.
const NO_MARK: usize = GRANT_LABEL + 2 * bits::PRESENT_BITS as usize;

const ONE_MARK: usize = GRANT_LABEL + (bits::PRESENT_BITS + bits::MARK_BITS) as usize;

const BOTH_MARKS: usize = GRANT_LABEL + 2 * bits::MARK_BITS as usize;

// Where a record's count of consulted entries begins, and the entries.
const RECORD_COUNT: usize = (bits::KIND_BITS + bits::SHEET_NUMBER_BITS) as usize;

const RECORD_ENTRIES: usize = bits::RECORD_LEAD_BITS as usize;

// Half a word: a record's lead is a word in both forms, and read by halves.
const HALF_BITS: u32 = 16;

// As `bits::plain_node_bits`, with a test for a Permit: in a long list of them it is predicted, and the next node needn't wait for the table.
#[tactic(auto, unfolding(bits::specs::Widths::plain_node_width, bits::specs::Widths::has_lists, bits::specs::Widths::plain_width))]
fn plain_node_bits(kind: u32) -> Option<u32>
    ensures { result ≡ plain_node_width kind }
{
    if kind == policy_model::KIND_PERMIT {
        return Some(PLAIN_BITS);
    }
    bits::plain_node_bits(kind)
}

// The arms of a node without lists, by its word. Those that have none are told by a test, the others by `policy_model`'s tables: a branch on which of
// them it is would often be mispredicted.
#[tactic(auto, unfolding(policy_model::specs::Span::arms_of))]
fn plain_arms(word: u32) -> u32
    ensures { result ≡ arms_of word }
{
    match word / policy_model::KIND {
        policy_model::KIND_ALWAYS
        | policy_model::KIND_NEVER
        | policy_model::KIND_HAS
        | policy_model::KIND_PERMIT
        | policy_model::KIND_DENY => 0,
        _ => policy_model::arms_of(word),
    }
}

// The word of a node without lists, from those bits and its width. Its kind is a number, as `policy_model` says.
#[tactic(auto, using(crate::proofs::Fields::plain_told, bits::specs::WidthLaws::plain_few), unfolding(crate::specs::Nodes::plain_word))]
fn plain_word(lead: u32, width: u32) -> u32
    requires { (lead < 2 ^ 20) × (Some width ≡ plain_node_width (lead / 65536)) }
    ensures { result ≡ plain_word lead }
{
    lead / policy_model::HALF * policy_model::KIND
        + ((lead % policy_model::HALF) >> (PLAIN_BITS - width))
}

// The bits of some bytes, from bit `at` on. Past the end they are 0.
#[derive(Clone, Copy)]
struct Here<'a> {
    bytes: &'a [u8],
    at: usize,
    ghost octets: { (i : ℕ) → get_or bytes.now i 0 < 256 },
    ghost near: { at < 2 ^ 32 },
}

impl Here<'_> {
    ghost use Rattle.unpack.specs.Places.{whole, rest};

    // The field of so many bits, `from` bits on.
    #[tactic(auto, using(crate::proofs::Fields::at_field))]
    fn bits(&self, from: usize, width: u32) -> u32
        requires { (from < 2 ^ 32) × (width ≤ 25) }
        ensures is { result ≡ field_in from width (rest self.now) }
        ensures fits { result < 2 ^ width }
    {
        bits::bits_at(self.bytes, self.at + from, width)
    }

    // A label or reason, `from` bits on: 0 if it is absent, as the word has it.
    #[tactic(auto, unfolding(crate::specs::Nodes::mark_in))]
    fn mark(&self, from: usize) -> u32
        requires { from < 2 ^ 32 }
        ensures is { result ≡ mark_in from (rest self.now) }
        ensures fits { result < 65536 }
    {
        if self.bits(from, 1) == 0 {
            0
        } else {
            self.bits(from, bits::MARK_BITS)
        }
    }

    // A Grant: kind, shape, obligation count, outcome, label, reason.
    #[tactic(auto, using(bits::specs::WidthLaws::mark_few), unfolding(crate::specs::Nodes::grant_node))]
    fn grant(&self) -> Node
        ensures is { result ≡ grant_node (rest self.now) }
        ensures small { Small result }
    {
        let lead = self.bits(0, bits::GRANT_LEAD_BITS);
        let label = self.mark(GRANT_LABEL);
        let middle = GRANT_LABEL + bits::mark_bits(label) as usize;
        let reason = self.mark(middle);
        Node {
            first: lead * policy_model::OBLIGATIONS + self.bits(GRANT_OUTCOME, bits::OUTCOME_BITS),
            second: label * policy_model::HALF + reason,
            third: None,
            width: middle + bits::mark_bits(reason) as usize,
            obligations: lead % policy_model::OBLIGATION_COUNTS,
            facts: 0,
        }
    }

    // The bits of a Grant before its obligations, by the present bits alone, as the check asks no more: the label's, and the reason's beside it or after the
    // label.
    fn grant_width(&self) -> usize
        ensures is { result ≡ (grant_node (rest self.now)).width }
        ensures few { result ≤ 60 }
    {
        let marks = self.bits(GRANT_LABEL, bits::MARK_BITS + bits::PRESENT_BITS);
        if marks < policy_model::MARKED {
            NO_MARK
        } else if marks < policy_model::HALF {
            ONE_MARK
        } else if marks % 2 == 0 {
            ONE_MARK
        } else {
            BOTH_MARKS
        }
    }

    // A PermitWithTrace: kind, obligation count, outcome, label, count of facts.
    #[tactic(auto, using(bits::specs::WidthLaws::mark_few), unfolding(crate::specs::Nodes::permit_node))]
    fn permit_trace(&self) -> Node
        ensures is { result ≡ permit_node (rest self.now) }
        ensures small { Small result }
    {
        let obligations = self.bits(bits::KIND_BITS as usize, bits::OBLIGATION_COUNT_BITS);
        let label = self.mark(PERMIT_LABEL);
        let middle = PERMIT_LABEL + bits::mark_bits(label) as usize;
        let facts = self.bits(middle, bits::COUNT_BITS);
        Node {
            first: policy_model::LEAD_PERMIT_WITH_TRACE
                + obligations * policy_model::OBLIGATIONS
                + self.bits(PERMIT_OUTCOME, bits::OUTCOME_BITS),
            second: label * policy_model::HALF + facts,
            third: None,
            width: middle + bits::COUNT_BITS as usize,
            obligations,
            facts,
        }
    }

    // The first word of a DenyWithTrace: kind, shape, present bit, and the outcome if it is present.
    #[tactic(auto, using(bits::specs::WidthLaws::denied_few, std::proofs::Common::pow_mono), unfolding(crate::specs::Nodes::deny_first))]
    fn denied(&self) -> u32
        ensures { result ≡ deny_first (rest self.now) }
    {
        let lead = self.bits(0, bits::DENY_WITH_TRACE_LEAD_BITS) * policy_model::DENIED;
        lead + self.bits(DENY_OUTCOME, bits::denied_bits(lead))
    }

    // A DenyWithTrace: its first word, label, reason, count of facts.
    #[tactic(auto, using(bits::specs::WidthLaws::mark_few, bits::specs::WidthLaws::denied_few), unfolding(crate::specs::Nodes::deny_node))]
    fn deny_trace(&self) -> Node
        ensures is { result ≡ deny_node (rest self.now) }
        ensures small { Small result }
    {
        let first = self.denied();
        let before = DENY_OUTCOME + bits::denied_bits(first) as usize;
        let label = self.mark(before);
        let middle = before + bits::mark_bits(label) as usize;
        let reason = self.mark(middle);
        let after = middle + bits::mark_bits(reason) as usize;
        let facts = self.bits(after, bits::COUNT_BITS);
        Node {
            first,
            second: label * policy_model::HALF + reason,
            third: Some(facts),
            width: after + bits::COUNT_BITS as usize,
            obligations: 0,
            facts,
        }
    }

    // The node of kind 8, 12 or 13. By value, so that a walk keeps a place in registers until it comes to such a node.
    #[tactic(auto, unfolding(crate::specs::Nodes::list_node))]
    fn node(self, kind: u32) -> Node
        ensures is { result ≡ list_node kind (rest self.entry) }
        ensures small { Small result }
    {
        match kind {
            policy_model::KIND_GRANT => self.grant(),
            policy_model::KIND_PERMIT_WITH_TRACE => self.permit_trace(),
            _ => self.deny_trace(),
        }
    }

    // Restores the words of a node that stands here.
    #[tactic(auto, using(crate::proofs::Ends::fixed_few))]
    fn restore_node(&self, node: Node, out: &mut [u32]) -> usize
        requires { (self.now.at < 2 ^ 20) × Small node × (node_count node ≤ length out.old) }
        ensures { (result ≡ node_count node) × Written (node_words node (rest self.now)) out.old out.new result }
    {
        let obligations = FieldList {
            here: Here {
                bytes: self.bytes,
                at: self.at + node.width,
            },
            count: node.obligations,
            width: bits::OBLIGATION_BITS,
        };
        let facts = FieldList {
            here: Here {
                bytes: self.bytes,
                at: self.at + node.width + (bits::OBLIGATION_BITS * node.obligations) as usize,
            },
            count: node.facts,
            width: bits::FACT_BITS,
        };
        let a = restore_fixed(node, out);
        let b = a + obligations.restore_obligations(&mut out[a..]);
        b + facts.restore_entries(&mut out[b..])
    }

    // Restores the nodes up to bit `end`.
    #[tactic(auto, using(crate::proofs::Restoring::restoring))]
    fn restore(&self, end: usize, out: &mut [u32]) -> usize
        requires { (length self.now.bytes.now ≤ tight_bytes) × (self.now.at ≤ end) × (end ≤ length (whole self.now)) × (length (restored (rest self.now) 0 (end - self.now.at)) ≤ length out.old) }
        ensures { Written (restored (rest self.now) 0 (end - self.now.at)) out.old out.new result }
    {
        let mut at = self.at;
        let mut to = 0;
        // a `while`: each node says itself where the next one begins
        while at < end {
            let here = Here {
                bytes: self.bytes,
                at,
            };
            let lead = here.bits(0, PLAIN_BITS);
            let kind = lead / policy_model::HALF;
            match plain_node_bits(kind) {
                Some(width) => {
                    out[to] = plain_word(lead, width);
                    to += 1;
                    at = at + width as usize;
                }
                None => {
                    let node = here.node(kind);
                    to = to + here.restore_node(node, &mut out[to..]);
                    at = at + node_bits(node);
                }
            }
        }
        to
    }

    // Whether they are the filler: fewer than eight bits, all 0.
    #[tactic(auto, using(laws::proofs::BitLaws::length_run, crate::proofs::Ends::filled_few, crate::proofs::Ends::filled_many))]
    fn filled(&self) -> bool
        requires { (length self.now.bytes.now ≤ tight_bytes) × (self.now.at ≤ length (whole self.now)) }
        ensures { result ≡ (ltb (length (rest self.now)) 8 && zeros (rest self.now)) }
    {
        let left = self.bytes.len() * 8 - self.at;
        left < 8 && self.bits(0, left as u32) == 0
    }
}

// The bits of a node itself, and its words.
fn node_bits(node: Node) -> usize
    requires { Small node }
    ensures is { result ≡ node_length node }
    ensures few { result < 65536 }
{
    node.width + (bits::OBLIGATION_BITS * node.obligations + bits::FACT_BITS * node.facts) as usize
}

fn node_words(node: Node) -> usize
    requires { Small node }
    ensures is { result ≡ node_count node }
    ensures few { result < 65536 }
{
    2 + usize::from(node.third.is_some())
        + policy_model::obligation_words(node.obligations)
        + policy_model::entry_words(node.facts)
}

// Where a check stands: the bits that are left, and the words before them.
#[derive(Clone, Copy)]
struct Place<'a> {
    here: Here<'a>,
    words: usize,
    ghost short: { length here.bytes.now ≤ tight_bytes },
    ghost inside: { here.at ≤ length (run_of here.bytes.now) },
    ghost fewer: { words ≤ here.at },
}

// What a check finds: the bit after what was checked, and the words before it. No `Place`: where each node hands the bytes on to the next, a mixed sheet takes
// 1.3 times as long, over the 25 ns a word that are allowed.
#[derive(Clone, Copy)]
struct Found {
    at: usize,
    words: usize,
}

// What a check of one node finds, and how many arms follow it.
#[derive(Clone, Copy)]
struct Step {
    found: Found,
    arms: u32,
}

impl Place<'_> {
    ghost use Rattle.unpack.specs.Places.{whole, rest, after, plain_step, Steps};

    // That the bits don't end before so many.
    #[tactic(auto, using(crate::proofs::Fields::left))]
    fn inside(&self, width: usize) -> Result<(), Refusal>
        requires { width < 2 ^ 32 }
        ensures { refused result ≡ ended (rest self.now.here) width }
    {
        if self.here.bytes.len() * 8 < self.here.at + width {
            return Err(Refusal::BitsEnd);
        }
        Ok(())
    }

    // The first bits of a node: they are there to the end of its kind.
    fn lead(&self) -> Result<u32, Refusal>
        ensures { by_number result ≡ lead_read (rest self.now.here) }
    {
        self.inside(bits::KIND_BITS as usize)?;
        Ok(self.here.bits(0, PLAIN_BITS))
    }

    // What is found after so many bits, if they are there, and so many words.
    fn after(&self, width: usize, words: usize) -> Result<Found, Refusal>
        requires { (width < 2 ^ 32) × (words < 2 ^ 32) }
        ensures { by_number result ≡ after self.now width words }
    {
        self.inside(width)?;
        Ok(Found {
            at: self.here.at + width,
            words: self.words + words,
        })
    }

    // Checks a node without lists, from its first bits.
    #[tactic(auto, using(crate::proofs::Fields::plain_told, crate::proofs::Fields::lists_told, bits::specs::WidthLaws::plain_few))]
    fn plain_step(&self, lead: u32) -> Result<Step, Refusal>
        requires { (lead < 2 ^ 20) × (has_lists (lead / 65536) ≡ false) }
        ensures { by_number result ≡ plain_step self.now lead }
    {
        let width = bits::plain_node_bits(lead / policy_model::HALF).unwrap();
        Ok(Step {
            found: self.after(width as usize, 1)?,
            arms: plain_arms(plain_word(lead, width)),
        })
    }

    // Checks a Grant from its first bits, with its condition of at most `depth` levels: the obligation count first, then the other fields.
    #[tactic(auto, using(laws::proofs::BitLaws::length_run, crate::proofs::Steps::after_inside))]
    fn grant_step(&self, lead: u32, depth: usize) -> Result<Step, Refusal>
        requires { (depth < levels) × (kind_in (rest self.now.here) ≡ 8) × (lead ≡ lead_in (rest self.now.here)) }
        ensures { (residual : Bool) → Steps self.now (suc depth) (one_policy residual (suc depth)) (all_policies residual depth) (by_number result) }
    {
        self.inside(GRANT_OUTCOME)?;
        let obligations = (lead >> (PLAIN_BITS - bits::GRANT_LEAD_BITS))
            % policy_model::OBLIGATION_COUNTS;
        if obligations > policy_model::MOST_OBLIGATIONS {
            return Err(Refusal::Field);
        }
        let width = self.here.grant_width() + (bits::OBLIGATION_BITS * obligations) as usize;
        let Found { at, words } = self.after(
            width,
            2 + policy_model::obligation_words(obligations),
        )?;
        let condition = Place {
            here: Here {
                bytes: self.here.bytes,
                at,
            },
            words,
        };
        Ok(Step {
            found: condition.check(&Conditions, depth)?,
            arms: 0,
        })
    }

    // Checks a PermitWithTrace or DenyWithTrace.
    fn stored_step(&self, kind: u32) -> Result<Step, Refusal>
        requires { (kind_in (rest self.now.here) ≡ kind) × (12 ≤ kind) × (kind ≤ 13) }
        ensures { (depth : ℕ) → Steps self.now (suc depth) (one_policy true (suc depth)) (all_policies true depth) (by_number result) }
    {
        let node = self.here.node(kind);
        Ok(Step {
            found: self.after(node_bits(node), node_words(node))?,
            arms: 0,
        })
    }

    // Checks a node of at most `depth` levels. One loop, as `policy_model` checks words: `left` nodes are due at `level`, and `above`, an
    // array as there is no heap, says how many are due at each level above it. Not one loop with that: a trait over both would have words and bits, and two
    // ways of counting, as members.
    #[tactic(auto, using(laws::proofs::BitLaws::length_run))]
    fn check<N: Nodes>(&self, nodes: &N, depth: usize) -> Result<Found, Refusal>
        requires { depth ≤ levels }
        ensures { Says (whole self.now.here) self.now.here.at (N.one nodes.now depth self.now.words (rest self.now.here)) (by_number result) }
    {
        let mut above = [0u32; policy_model::LEVELS];
        let mut level = 0;
        let mut left: u32 = 1;
        let mut found = Found {
            at: self.here.at,
            words: self.words,
        };
        // a `loop`: each node says itself where the next one begins, and how many are due below it
        loop {
            if left == 0 {
                if level == 0 {
                    return Ok(found);
                }
                level -= 1;
                left = above[level];
                continue;
            }
            let place = Place {
                here: Here {
                    bytes: self.here.bytes,
                    at: found.at,
                },
                words: found.words,
            };
            let step = nodes.step(place, depth - level)?;
            found = step.found;
            // stored at each node, as a branch on whether it has arms is often mispredicted
            left -= 1;
            above[level] = left;
            if step.arms != 0 {
                level += 1;
                left = step.arms;
            }
        }
    }

    // Checks the tree of a Resolved record: one node 12 or 13.
    #[tactic(auto, using(crate::proofs::Steps::resolved))]
    fn check_resolved(&self) -> Result<Found, Refusal>
        ensures { Says (whole self.now.here) self.now.here.at (sized words_b self.now.words (resolved_in (rest self.now.here))) (by_number result) }
    {
        let lead = self.lead()?;
        if lead / policy_model::HALF < policy_model::KIND_PERMIT_WITH_TRACE {
            return Err(Refusal::Kind);
        }
        self.check(&Policies { residual: true }, 1)
    }
}

// The nodes that a check takes in one loop: conditions, or policies.
trait Nodes {
    ghost use Rattle.unpack.specs.Places.{Steps};

    // What is asked of a node of at most so many levels, after so many words, and of so many nodes.
    ghost one: { Self → ℕ → ℕ → List ℕ → Parsed ℕ };

    ghost all: { Self → ℕ → ℕ → List ℕ → ℕ → Parsed ℕ };

    // Checks a node up to its arms.
    fn step(&self, place: Place<'_>, depth: usize) -> Result<Step, Refusal>
        requires { depth ≤ levels }
        ensures { Steps place.entry depth (one self.now depth) (all self.now (depth - 1)) (by_number result) };

    ghost lists: { (nodes : Self) → Lists (one nodes) (all nodes) };
}

struct Conditions;

impl Nodes for Conditions {
    ghost one = { λ _. one_condition };

    ghost all = { λ _. all_conditions };

    ghost lists = { λ _. condition_lists };

    #[tactic(auto, using(crate::proofs::Steps::conditions))]
    fn step(&self, place: Place<'_>, depth: usize) -> Result<Step, Refusal> {
        let lead = place.lead()?;
        if lead / policy_model::HALF > policy_model::KIND_CONDITION_ANY {
            return Err(Refusal::Kind);
        }
        if depth == 0 {
            return Err(Refusal::Level);
        }
        place.plain_step(lead)
    }
}

// The last kind that is read: nodes 12 and 13 stand in residuals only. A flag, as at `policy_head`: it chooses no step, it only bounds the kinds.
fn last_kind(residual: bool) -> u32
    ensures { result ≡ last_kind residual }
{
    if residual {
        policy_model::KIND_DENY_WITH_TRACE
    } else {
        policy_model::KIND_OR_ELSE
    }
}

// Policies, of a residual or of a sheet. A Grant's condition is no arm.
struct Policies {
    residual: bool,
}

impl Nodes for Policies {
    ghost one = { λ nodes. one_policy nodes.residual };

    ghost all = { λ nodes. all_policies nodes.residual };

    ghost lists = { λ nodes. policy_lists nodes.residual };

    #[tactic(auto, using(crate::proofs::Steps::policies))]
    fn step(&self, place: Place<'_>, depth: usize) -> Result<Step, Refusal> {
        let lead = place.lead()?;
        let kind = lead / policy_model::HALF;
        if kind < policy_model::KIND_PERMIT || kind > last_kind(self.residual) {
            return Err(Refusal::Kind);
        }
        if depth == 0 {
            return Err(Refusal::Level);
        }
        match kind {
            policy_model::KIND_GRANT => place.grant_step(lead, depth - 1),
            policy_model::KIND_PERMIT_WITH_TRACE | policy_model::KIND_DENY_WITH_TRACE => {
                place.stored_step(kind)
            }
            _ => place.plain_step(lead),
        }
    }
}

// A list of fields, each of so many bits. Past its last one they are 0, as the fields that a word doesn't use.
#[derive(Clone, Copy)]
struct FieldList<'a> {
    here: Here<'a>,
    count: u32,
    width: u32,
    ghost few: { count < 4096 },
    ghost narrow: { width ≤ 12 },
}

impl FieldList<'_> {
    ghost use Rattle.unpack.specs.Places.{rest};

    // The fields of a word, `most` from number `first` on, as one number: they are read at once, and moved up by those that the last word lacks.
    fn group(&self, first: usize, most: u32) -> u32
        requires { (first < self.now.count) × (self.now.width * most ≤ 25) }
        ensures { result ≡ joined self.now.width most (drop first (fields_in self.now.width self.now.count (rest self.now.here))) }
    {
        let left = self.count - first as u32;
        let fields = if left < most { left } else { most };
        self.here
            .bits(self.width as usize * first, self.width * fields)
            << (self.width * (most - fields))
    }

    // Restores obligations, four a word; unused tail fields are 0.
    fn restore_obligations(&self, out: &mut [u32]) -> usize
        requires { (self.now.width ≡ obligation_tight_bits) × (words_for 4 self.now.count ≤ length out.old) }
        ensures { (result ≡ words_for 4 self.now.count) × Written (obligation_words self.now.count (rest self.now.here)) out.old out.new result }
    {
        let words = policy_model::obligation_words(self.count);
        for j in 0..words {
            out[j] = obligation_word(self.group(j * 4, 4));
        }
        words
    }

    // Restores facts, or consulted entries, two a word; an unused last field is 0. Inlined: most nodes have none, and then nothing is laid in memory for a call.
    // Apart from `restore_obligations`: four fields a word against two, each put together in one sum, are plainer than a loop over the fields of a word.
    #[inline(always)]
    fn restore_entries(&self, out: &mut [u32]) -> usize
        requires { words_for 2 self.now.count ≤ length out.old }
        ensures { (result ≡ words_for 2 self.now.count) × Written (entry_words self.now.width self.now.count (rest self.now.here)) out.old out.new result }
    {
        let words = policy_model::entry_words(self.count);
        for j in 0..words {
            let pair = self.group(j * 2, 2);
            out[j] = entry(pair >> self.width) * policy_model::HALF
                + entry(pair % (1 << self.width));
        }
        words
    }
}

// A word of four obligations, from their bits.
fn obligation_word(bits: u32) -> u32
    requires { bits < 2 ^ 24 }
    ensures { (owed : List ℕ) → Narrow obligation_tight_bits owed → bits ≡ joined obligation_tight_bits 4 owed → result ≡ joined obligation_bits 4 owed }
{
    let above_fourth = bits / policy_model::OBLIGATION_NUMBERS;
    let above_third = above_fourth / policy_model::OBLIGATION_NUMBERS;
    above_third / policy_model::OBLIGATION_NUMBERS * policy_model::THREE_QUARTERS
        + above_third % policy_model::OBLIGATION_NUMBERS * policy_model::HALF
        + above_fourth % policy_model::OBLIGATION_NUMBERS * policy_model::QUARTER
        + bits % policy_model::OBLIGATION_NUMBERS
}

// A fact or consulted entry with its zero bits.
fn entry(field: u32) -> u32
    requires { field < 2 ^ 12 }
    ensures is { result ≡ loose_entry field }
    ensures fits { result < 65536 }
{
    field / policy_model::FACTS * policy_model::PRESENCE + field % policy_model::FACTS
}

// Restores the first words of a node.
#[tactic(auto, using(crate::proofs::Ends::two_words, crate::proofs::Ends::three_words))]
fn restore_fixed(node: Node, out: &mut [u32]) -> usize
    requires { length (fixed_words node) ≤ length out.old }
    ensures { Written (fixed_words node) out.old out.new result }
{
    out[0] = node.first;
    out[1] = node.second;
    match node.third {
        None => 2,
        Some(third) => {
            out[2] = third;
            3
        }
    }
}

// Whether what a check found is all, has at most so many words, and has room for them.
#[tactic(auto, using(laws::proofs::BitLaws::length_run))]
fn judge(bytes: &[u8], found: Found, most: usize, room: usize) -> Result<(), Refusal>
    requires { (length bytes.now ≤ tight_bytes) × (found.at ≤ length (run_of bytes.now)) }
    ensures { refused result ≡ judged (filled (got found.words (drop found.at (run_of bytes.now)))) most room }
{
    let end = Here {
        bytes,
        at: found.at,
    };
    if !end.filled() {
        return Err(Refusal::Filler);
    }
    if found.words > most || found.words > room {
        return Err(Refusal::Room);
    }
    Ok(())
}

// Unpacks a sheet. Its length is known before a word changes.
pub fn unpack_sheet(bytes: &[u8], out: &mut [u32]) -> Answer
    ensures { Answered (unpack_sheet bytes.now (length out.old)) out.old out.new result }
{
    if bytes.len() > TIGHT_BYTES {
        return Err(Refusal::Length);
    }
    let start = Place {
        here: Here { bytes, at: 0 },
        words: 0,
    };
    let found = start.check(&Policies { residual: false }, policy_model::LEVELS)?;
    judge(bytes, found, policy_model::SHEET_WORDS, out.len())?;
    start.here.restore(found.at, out);
    Ok(found.words)
}

// Checks a record: kind, the sheet's number, consulted count, the entries, the tree.
fn check_record(bytes: &[u8]) -> Result<Found, Refusal>
    requires { length bytes.now ≤ tight_bytes }
    ensures { Says (run_of bytes.now) (tree_at (run_of bytes.now)) (sized words_u 0 (loose_r (run_of bytes.now))) (by_number result) }
{
    let start = Place {
        here: Here { bytes, at: 0 },
        words: 0,
    };
    start.inside(bits::KIND_BITS as usize)?;
    let kind = start.here.bits(0, bits::KIND_BITS);
    if kind < policy_model::KIND_RESOLVED {
        return Err(Refusal::Kind);
    }
    start.inside(RECORD_ENTRIES)?;
    let count = start.here.bits(RECORD_COUNT, bits::COUNT_BITS);
    let tree = RECORD_ENTRIES + (bits::ENTRY_BITS * count) as usize;
    start.inside(tree)?;
    let place = Place {
        here: Here { bytes, at: tree },
        words: 1 + policy_model::entry_words(count),
    };
    if kind == policy_model::KIND_RESOLVED {
        return place.check_resolved();
    }
    place.check(&Policies { residual: true }, policy_model::LEVELS)
}

// Restores a record's words to bit `end`.
#[tactic(auto, using(crate::proofs::Records::length_restored))]
fn restore_record(bytes: &[u8], end: usize, out: &mut [u32]) -> usize
    requires { (length bytes.now ≤ tight_bytes) × (tree_at (run_of bytes.now) ≤ end) × (end ≤ length (run_of bytes.now)) × (length (restored_record (run_of bytes.now) end) ≤ length out.old) }
    ensures { Written (restored_record (run_of bytes.now) end) out.old out.new result }
{
    let start = Here { bytes, at: 0 };
    let count = start.bits(RECORD_COUNT, bits::COUNT_BITS);
    out[0] = start.bits(0, HALF_BITS) * policy_model::HALF
        + start.bits(HALF_BITS as usize, HALF_BITS);
    let consulted = FieldList {
        here: Here {
            bytes,
            at: RECORD_ENTRIES,
        },
        count,
        width: bits::ENTRY_BITS,
    };
    let tree = Here {
        bytes,
        at: RECORD_ENTRIES + (bits::ENTRY_BITS * count) as usize,
    };
    let front = 1 + consulted.restore_entries(&mut out[1..]);
    front + tree.restore(end, &mut out[front..])
}

// Unpacks a record.
pub fn unpack_record(bytes: &[u8], out: &mut [u32]) -> Answer
    ensures { Answered (unpack_record bytes.now (length out.old)) out.old out.new result }
{
    if bytes.len() > TIGHT_BYTES {
        return Err(Refusal::Length);
    }
    let found = check_record(bytes)?;
    judge(bytes, found, policy_model::RECORD_WORDS, out.len())?;
    restore_record(bytes, found.at, out);
    Ok(found.words)
}
