// Decisions as small values, and the folds of permits over them, after gatekeep's evaluate.rs (`Permit::meet`, `Permit::join`, `union_obligations`).
// A walk keeps no lists: a decision names nodes of the lent words by position, and only obligations that a join appended stand in a lent buffer.
#![tactic(auto)]

ghost use Rattle.std.specs.Prelude.{◌≡◌, eqb, true, None, ◌∷◌, [], ◌≤◌, ◌<◌, ◌^◌, length, take, drop};
ghost use Rattle.std.specs.Int.Bits.{bit_or};
ghost use Rattle.model.specs.Writing.{most_held};
ghost use Rattle.model.specs.Reading.{obligation_count};
ghost use Rattle.std.proofs.Math.Option.{Option};
ghost use Rattle.model.specs.Levels.{OutcomeTable, meet_of, join_of};
ghost use Rattle.model.specs.Products.{meet_permit, join_permit};
ghost use Rattle.decision.specs.Room.{obligation_room, list_room, RoomToUnite, Few};
ghost use Rattle.decision.specs.Nodes.{reached, obligations_at, obligation_count_of, obligation_fields};
ghost use Rattle.decision.specs.Meaning.{denied_at, permitted_at, granted_at, Names};
ghost use Rattle.decision.specs.Answers.{Loaded, Held, Masked, Unobliged, Both, Kept, Folded};

use outcome::Products;
use policy_model::PolicyHead;

// What was decided. A position is that of a grant or of a stored decision.
// One flat value and no enum: most uses ask `permit` alone or the clause, which both kinds have, and a match would give each of them two arms.
#[derive(Clone, Copy)]
pub struct Decision {
    pub permit: bool,
    // of a permit; no product on deny
    pub outcome: u16,
    // Of a permit: how many obligations it has besides, which joins appended, at the front of the buffer. That they fit in their room (`Few`) is asked by each
    // function that reads the buffer, and is no ghost field: others, such as `products`, take any decision, and with one they would ask more of their callers.
    // A u32, as it then lies in one word with what stands above: a wide list copies less for each arm.
    pub united: u32,
    // the node whose label, reason, shape and facts it carries
    pub clause: Option<usize>,
    // of a permit: the node whose obligations it has
    pub obligations: Option<usize>,
}

impl Decision {
    // Its outcome as products, or as a level.
    pub fn products(self) -> Products
        ensures { result.bits ≡ self.outcome }
    {
        Products { bits: self.outcome }
    }
}

// An obligation is a number below this.
const OBLIGATION_NUMBERS: u8 = policy_model::OBLIGATION_NUMBERS as u8;

// No more are appended: obligations are 0 to 63, and a join appends only those that are not held.
pub const OBLIGATION_ROOM: usize = policy_model::OBLIGATION_NUMBERS as usize;

// The most obligations of a node: as many as the bits of their count can say.
pub const MOST_HELD: usize = policy_model::OBLIGATION_COUNTS as usize - 1;

// Room for all obligations of a decision: fewer than 128 of its node, and those that were appended.
pub const LIST_ROOM: usize = policy_model::OBLIGATION_COUNTS as usize + OBLIGATION_ROOM;

// A deny with the clause of the node at `at`, or with nothing named.
pub fn denied_by(at: Option<usize>) -> Decision
    ensures { result ≡ denied_at at }
{
    Decision {
        permit: false,
        outcome: Products::NONE.bits,
        clause: at,
        obligations: None,
        united: 0,
    }
}

// A deny, Forbidden, with nothing named.
pub fn denied() -> Decision
    ensures { result ≡ denied_at None }
{
    denied_by(None)
}

// A permit with the label and facts of the node at `at`, and with the obligations of the node at `held` and the first `united` bytes of the buffer.
fn with_united(outcome: u16, at: Option<usize>, held: Option<usize>, united: u32) -> Decision
    ensures { result ≡ permitted_at outcome at held united }
{
    Decision {
        permit: true,
        outcome,
        clause: at,
        obligations: held,
        united,
    }
}

// A permit with the label, facts and obligations of the node at `at`, or with nothing but its outcome.
pub fn permitted_by(outcome: u16, at: Option<usize>) -> Decision
    ensures { result ≡ permitted_at outcome at at 0 }
{
    with_united(outcome, at, at, 0)
}

// A permit with nothing but its outcome.
pub fn permitted(outcome: u16) -> Decision
    ensures { result ≡ permitted_at outcome None None 0 }
{
    permitted_by(outcome, None)
}

// The decision of a grant at `at` on the outcome, by its condition's answer, just given: `satisfied` is no switch.
pub fn granted(satisfied: bool, outcome: u16, at: usize) -> Decision
    ensures { result ≡ granted_at satisfied outcome at }
{
    if satisfied {
        permitted_by(outcome, Some(at))
    } else {
        denied_by(Some(at))
    }
}

// The node that is named, if the words reach it.
pub fn node_in(words: &[u32], named: Option<usize>) -> Option<usize>
    ensures { result ≡ reached words.now named }
{
    named.filter(|at| *at < words.len())
}

// How many obligations a node has, by its first word.
fn obligation_count(word: u32) -> usize
    ensures { (result ≡ obligation_count_of word) × (result ≤ most_held) }
{
    match policy_model::policy_head(word, true) {
        PolicyHead::Grant { obligations, .. } | PolicyHead::PermitWithTrace { obligations, .. } => {
            obligations as usize
        }
        _ => 0,
    }
}

// Fills `out` with a node's first obligations. They begin two words after its first.
#[tactic(auto, using(crate::proofs::Lists::load_more), unfolding(laws::specs::FieldAt::firsts))]
fn load_list(node: &[u32], out: &mut [u8])
    ensures { out.new ≡ obligation_fields (length out.old) (drop 2 node.now) }
{
    for (i, slot) in out.iter_mut().enumerate() {
        *slot = packing::unpack_obligation(node, 2, i);
    }
}

// Writes the obligations of the node that is named to the front of `out`, and returns how many there are.
#[tactic(auto, using(crate::proofs::Nodes::reached_inside, crate::proofs::Nodes::loaded_none, crate::proofs::Nodes::loaded))]
fn load_obligations(words: &[u32], named: Option<usize>, out: &mut [u8]) -> usize
    requires { most_held ≤ length out.old }
    ensures { Loaded words.now named out.new result }
{
    let Some(at) = node_in(words, named) else {
        return 0;
    };
    let count = obligation_count(words[at]);
    load_list(&words[at..], &mut out[..count]);
    count
}

// Writes a decision's obligations to the front of `out`, and returns how many there are: those of its node, and then those that were appended.
#[tactic(auto, using(crate::proofs::Lists::held_with))]
pub fn obligations(words: &[u32], decision: Decision, buf: &[u8], out: &mut [u8]) -> usize
    requires { Few decision × RoomToUnite 1 buf.now × (list_room ≤ length out.old) }
    ensures { Held words.now decision buf.now out.new result }
{
    let own = load_obligations(words, decision.obligations, out);
    let count = decision.united as usize;
    out[own..own + count].copy_from_slice(&buf[..count]);
    own + count
}

// The mask with one more. No obligation that reads is over 63.
fn with_bit(mask: u64, obligation: u8) -> u64
    ensures { obligation < obligation_count → result ≡ bit_or mask (2 ^ obligation) }
{
    if obligation >= OBLIGATION_NUMBERS {
        return mask;
    }
    mask | (1u64 << obligation)
}

// The mask with these obligations.
#[tactic(auto, using(crate::proofs::Masks::masked_more))]
fn with_bits(mask: u64, numbers: &[u8]) -> u64
    ensures { Masked mask numbers.now result }
{
    let mut all = mask;
    for obligation in numbers {
        all = with_bit(all, *obligation);
    }
    all
}

// The mask of the obligations of the node that is named. This and `append_node` keep frames of their own, since folds are compiled into the walks, and their
// room would stand in a frame for each level.
#[inline(never)]
fn node_mask(words: &[u32], named: Option<usize>) -> u64
    ensures { Names words.now named → Masked 0 (obligations_at words.now named) result }
{
    let mut own = [0u8; MOST_HELD];
    let count = load_obligations(words, named, &mut own);
    with_bits(0, &own[..count])
}

// The obligations that are held, one bit each, and how many of them stand in the buffer.
#[derive(Drop)]
struct Union {
    mask: u64,
    count: usize,
    ghost bounded: { count ≤ obligation_room },
}

impl Union {
    ghost use Rattle.decision.specs.Uniting.{Grown};

    // Appends the obligation unless it is held. Where 64 were appended every obligation is held, so the last test never fails.
    #[tactic(auto, using(crate::proofs::Unions::append_held, crate::proofs::Unions::append_new, crate::proofs::Unions::append_full))]
    fn append(&mut self, obligation: u8, buf: &mut [u8])
        requires { RoomToUnite 1 buf.old }
        ensures { Grown (obligation ∷ []) buf.old buf.new self.old self.new }
    {
        if obligation >= OBLIGATION_NUMBERS {
            return;
        }
        if (self.mask >> obligation) % 2 == 1 {
            return;
        }
        if self.count < OBLIGATION_ROOM {
            buf[self.count] = obligation;
            self.mask = with_bit(self.mask, obligation);
            self.count += 1;
        }
    }

    // Appends these obligations, one by one.
    #[tactic(auto, using(crate::proofs::Unions::grown_none, crate::proofs::Unions::grown_more))]
    fn append_all(&mut self, numbers: &[u8], buf: &mut [u8])
        requires { RoomToUnite 1 buf.old }
        ensures { Grown numbers.now buf.old buf.new self.old self.new }
    {
        for obligation in numbers {
            self.append(*obligation, buf);
        }
    }

    // Appends those of the node that is named.
    #[inline(never)]
    fn append_node(&mut self, words: &[u32], named: Option<usize>, buf: &mut [u8])
        requires { RoomToUnite 1 buf.old }
        ensures rest { drop obligation_room buf.new ≡ drop obligation_room buf.old }
        ensures grown { Names words.now named → Grown (obligations_at words.now named) buf.old buf.new self.old self.new }
    {
        let mut own = [0u8; MOST_HELD];
        let count = load_obligations(words, named, &mut own);
        self.append_all(&own[..count], buf);
    }
}

// Whether a permit is known to have no obligations, so that there is nothing to unite. The field that counts them stands in one place in all
// nodes that have any, so the word is tested without its head.
#[tactic(auto, using(crate::proofs::Nodes::reached_inside))]
fn unobliged(words: &[u32], decision: Decision) -> bool
    ensures { result ≡ true → Unobliged words.now decision }
{
    if decision.united != 0 {
        return false;
    }
    let Some(at) = node_in(words, decision.obligations) else {
        return true;
    };
    policy_model::obligations_of(words[at]) == 0
}

// Appends the obligations of the incoming permit to those of the permit so far, and returns how many bytes of the buffer these take then. It is
// compiled into the folds, and these into the list rules: with calls, whole decisions are laid in memory for each arm, and an Any of 4,095 Permits is evaluated
// in 119 µs in place of 31.
#[inline(always)]
fn unite(words: &[u32], sofar: Decision, incoming: Decision, buf: &mut [u8]) -> u32
    requires { Few sofar × Few incoming × RoomToUnite 2 buf.old }
    ensures { Both words.now sofar incoming buf.old buf.new result }
{
    let count = sofar.united as usize;
    let (front, later) = buf.split_at_mut(OBLIGATION_ROOM);
    let mask = with_bits(node_mask(words, sofar.obligations), &front[..count]);
    let mut union = Union { mask, count };
    union.append_node(words, incoming.obligations, front);
    union.append_all(&later[..incoming.united as usize], front);
    union.count as u32
}

// The incoming decision of an arm, whose buffer starts at the second room, as the decision so far, whose buffer is the front.
pub fn keep(incoming: Decision, buf: &mut [u8]) -> Decision
    requires { Few incoming × RoomToUnite 2 buf.old }
    ensures { Kept incoming buf.old buf.new result }
{
    let count = incoming.united as usize;
    let (front, later) = buf.split_at_mut(OBLIGATION_ROOM);
    front[..count].copy_from_slice(&later[..count]);
    incoming
}

// Whether two outcomes are equal, by the function of their type, as outcomes are compared by that alone.
fn same_outcome(a: u16, b: u16) -> bool
    ensures { result ≡ eqb a b }
{
    Products { bits: a }.same(Products { bits: b })
}

// Two permits under All, whose outcomes meet in `outcome`. The permit so far has its buffer at the front, the incoming one from the second room on; the result
// has it at the front. Five parameters and no struct: each comes from elsewhere at each call, so a struct would be made to be taken apart at once.
#[inline(always)]
pub fn meet(
    words: &[u32],
    outcome: u16,
    sofar: Decision,
    incoming: Decision,
    buf: &mut [u8],
) -> Decision
    requires { Few sofar × Few incoming × RoomToUnite 2 buf.old }
    ensures few { Few result }
    ensures folds { (g : Option OutcomeTable) → outcome ≡ meet_of g sofar.outcome incoming.outcome → Folded (meet_permit g) words.now buf.old buf.new sofar incoming result }
{
    if same_outcome(outcome, sofar.outcome) {
        return sofar; // also where it equals both
    }
    if same_outcome(outcome, incoming.outcome) {
        return keep(incoming, buf);
    }
    permitted(outcome)
}

// Two permits under Any, whose outcomes join in `outcome`, with the buffers as in `meet`. Not one function with that: a meet unites no obligations, so where
// the outcome is that of both, or of neither, the two go apart.
#[inline(always)]
pub fn join(
    words: &[u32],
    outcome: u16,
    sofar: Decision,
    incoming: Decision,
    buf: &mut [u8],
) -> Decision
    requires { Few sofar × Few incoming × RoomToUnite 2 buf.old }
    ensures few { Few result }
    ensures folds { (g : Option OutcomeTable) → outcome ≡ join_of g sofar.outcome incoming.outcome → Folded (join_permit g) words.now buf.old buf.new sofar incoming result }
{
    if same_outcome(outcome, sofar.outcome) {
        if !same_outcome(outcome, incoming.outcome) {
            return sofar;
        }
        if unobliged(words, incoming) {
            return sofar;
        }
        let united = unite(words, sofar, incoming, buf);
        return with_united(outcome, sofar.clause, sofar.obligations, united);
    }
    if same_outcome(outcome, incoming.outcome) {
        return keep(incoming, buf);
    }
    let united = unite(words, sofar, incoming, buf);
    with_united(outcome, None, sofar.obligations, united)
}
