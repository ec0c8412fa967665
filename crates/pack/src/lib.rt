// Sheets and records in the tight form: every field in order, without zero fields and unused tails, as one run of bits. Words that were checked are a flat
// list of nodes, so measuring and writing are loops without levels.
#![tactic(auto)]

ghost use Rattle.std.specs.Prelude.{◌≡◌, IfSome, List, ℕ, ◌+◌, ◌*◌, ◌/◌, ◌%◌, ◌^◌, ◌≤◌, ◌<◌, length, drop};
ghost use Rattle.model.specs.Reading.{record_words, kind_of};
ghost use Rattle.model.specs.Writing.{obligation_bits};
ghost use Rattle.model.specs.Tight.{obligation_tight_bits};
ghost use Rattle.model.specs.Products.{pack_sheet, pack_record};
ghost use Rattle.laws.specs.FieldAt.{field_at};
ghost use Rattle.bits.specs.Splice.{Spliced};
ghost use Rattle.bits.specs.Cursors.{Put};
ghost use Rattle.answer.specs.Answers.{Answered};
ghost use Rattle.pack.specs.Flat.{list_run, entry_in, owed_in, mark_run, Plain, flat, record_run};
ghost use Rattle.pack.specs.Groups.{group};
ghost use Rattle.pack.specs.Room.{Room, RoomFor};
ghost use Rattle.pack.specs.Packing.{Packed};

use answer::Answer;
use bits::Cursor;
use refusal::Refusal;

// A node at its place among few words.
#[derive(Clone, Copy)]
struct Node<'a> {
    words: &'a [u32],
    at: usize,
    ghost inside: { at < length words.now },
    ghost few: { length words.now ≤ record_words },
}

impl Node<'_> {
    ghost use Rattle.pack.specs.Places.{first, second, third, own, grant, permit, deny, plain, run};

    // Its first words, 0 past the end.
    fn first(&self) -> u32
        ensures { result ≡ first self.now }
    {
        self.words[self.at]
    }

    fn second(&self) -> u32
        ensures { result ≡ second self.now }
    {
        policy_model::word_at(self.words, self.at + 1)
    }

    fn third(&self) -> u32
        ensures { result ≡ third self.now }
    {
        policy_model::word_at(self.words, self.at + 2)
    }

    // Its kind: a number, as `policy_model` says.
    fn kind(&self) -> u32
        ensures { result ≡ kind_of (first self.now) }
    {
        self.first() / policy_model::KIND
    }

    // How many obligations a Grant or a PermitWithTrace has.
    fn obligations(&self) -> u32
        ensures { result ≡ owed_in (first self.now) }
    {
        policy_model::obligations_of(self.first())
    }

    // Where the next node begins.
    fn end(&self) -> usize
        ensures is { result ≡ self.now.at + 1 + own self.now }
        ensures few { result ≤ self.now.at + 4097 }
    {
        self.at + 1 + policy_model::own_of(self.words, self.at)
    }

    // Its bits, if it has no lists. The loops ask it first, since most nodes have none.
    #[tactic(auto, using(crate::specs::FlatLaws::plain_bits))]
    fn bits_without_lists(&self) -> Option<u32>
        ensures { IfSome result (λ bits. Plain (first self.now) × (bits ≡ length (plain self.now)) × (bits ≤ 20)) }
    {
        bits::plain_node_bits(self.kind())
    }

    // The bits of a node as one without lists.
    #[tactic(auto, using(crate::specs::FlatLaws::length_plain))]
    fn plain_bits(&self) -> u32
        ensures { result ≡ length (plain self.now) }
    {
        bits::KIND_BITS + bits::plain_bits(self.kind())
    }

    // The bits of a Grant itself: its lead, outcome, label, reason, obligations.
    #[tactic(auto, using(bits::specs::WidthLaws::mark_few, crate::specs::FlatLaws::length_grant))]
    fn grant_bits(&self) -> usize
        ensures { result ≡ length (grant self.now) }
    {
        let second = self.second();
        let marks = bits::mark_bits(second / policy_model::HALF)
            + bits::mark_bits(second % policy_model::HALF);
        (bits::GRANT_LEAD_BITS
            + bits::OUTCOME_BITS
            + marks
            + bits::OBLIGATION_BITS * self.obligations()) as usize
    }

    // Of a PermitWithTrace: its lead, outcome, label, count of facts, obligations, facts.
    #[tactic(auto, using(bits::specs::WidthLaws::mark_few, crate::specs::FlatLaws::length_permit))]
    fn permit_trace_bits(&self) -> usize
        ensures { result ≡ length (permit self.now) }
    {
        let second = self.second();
        let lists = bits::OBLIGATION_BITS * self.obligations()
            + bits::FACT_BITS * (second % policy_model::COUNTS);
        (bits::PERMIT_WITH_TRACE_LEAD_BITS
            + bits::OUTCOME_BITS
            + bits::mark_bits(second / policy_model::HALF)
            + bits::COUNT_BITS
            + lists) as usize
    }

    // Of a DenyWithTrace: its lead, outcome if it has one, label, reason, count of facts, facts.
    #[tactic(auto, using(bits::specs::WidthLaws::mark_few, bits::specs::WidthLaws::denied_few, crate::specs::FlatLaws::length_deny))]
    fn deny_trace_bits(&self) -> usize
        ensures { result ≡ length (deny self.now) }
    {
        let second = self.second();
        let marks = bits::mark_bits(second / policy_model::HALF)
            + bits::mark_bits(second % policy_model::HALF);
        (bits::DENY_WITH_TRACE_LEAD_BITS
            + bits::denied_bits(self.first())
            + marks
            + bits::COUNT_BITS
            + bits::FACT_BITS * (self.third() % policy_model::COUNTS)) as usize
    }

    // The bits of any node itself.
    #[tactic(auto, using(crate::specs::FlatLaws::node_kinds))]
    fn bits(&self) -> usize
        ensures { result ≡ length (run self.now) }
    {
        match self.kind() {
            policy_model::KIND_GRANT => self.grant_bits(),
            policy_model::KIND_PERMIT_WITH_TRACE => self.permit_trace_bits(),
            policy_model::KIND_DENY_WITH_TRACE => self.deny_trace_bits(),
            _ => self.plain_bits() as usize,
        }
    }
}

// The tree of few words: its nodes, from a place to the end of the words.
#[derive(Clone, Copy)]
struct Tree<'a> {
    words: &'a [u32],
    from: usize,
    ghost inside: { from ≤ length words.now },
    ghost few: { length words.now ≤ record_words },
}

impl Tree<'_> {
    ghost use Rattle.pack.specs.Places.{nodes};

    // The bits of its nodes.
    fn measure(&self) -> usize
        ensures is { result ≡ length (nodes self.now) }
        ensures few { result ≤ 2 ^ 32 }
    {
        let words = self.words;
        let mut at = self.from;
        let mut size = 0;
        // a `while`: each node says itself where the next one begins
        while at < words.len() {
            let node = Node { words, at };
            if let Some(bits) = node.bits_without_lists() {
                size += bits as usize;
                at += 1;
            } else {
                size += node.bits();
                at = node.end();
            }
        }
        size
    }
}

// Fact or consulted entry number `index` of the list that begins at `at`, without its zero bits.
#[tactic(auto, unfolding(crate::specs::Flat::entry_in))]
fn entry_at(words: &[u32], at: usize, index: usize) -> u32
    requires { at + index / 2 < 2 ^ 64 }
    ensures { result ≡ entry_in (drop at words.now) index }
{
    let field = u32::from(packing::unpack_entry(words, at, index));
    field / policy_model::PRESENCE * policy_model::FACTS + field % policy_model::FACTS
}

// Two of them as one field, each in `width` bits.
fn entries_at(words: &[u32], at: usize, index: usize, width: u32) -> u32
    requires { (at + index < 2 ^ 60) × (width ≤ 12) }
    ensures { result ≡ group (entry_in (drop at words.now)) width index 2 }
{
    let kept = 1 << width;
    ((entry_at(words, at, index) % kept) << width) + entry_at(words, at, index + 1) % kept
}

// Obligation number `index` of the list that begins at `at`, in the bits that it takes.
fn obligation_at(words: &[u32], at: usize, index: usize) -> u32
    requires { at + index / 4 < 2 ^ 64 }
    ensures { result ≡ field_at obligation_bits (drop at words.now) index % 2 ^ obligation_tight_bits }
{
    u32::from(packing::unpack_obligation(words, at, index)) % policy_model::OBLIGATION_NUMBERS
}

// Four of them as one field.
fn obligations_at(words: &[u32], at: usize, index: usize) -> u32
    requires { at + index < 2 ^ 60 }
    ensures { result ≡ group (field_at obligation_bits (drop at words.now)) obligation_tight_bits index 4 }
{
    let first = obligation_at(words, at, index);
    let second = obligation_at(words, at, index + 1);
    let third = obligation_at(words, at, index + 2);
    let fourth = obligation_at(words, at, index + 3);
    let half = first * policy_model::OBLIGATION_NUMBERS + second;
    (half * policy_model::OBLIGATION_NUMBERS + third) * policy_model::OBLIGATION_NUMBERS + fourth
}

// Puts a label or a reason.
fn put_mark(out: &mut [u8], from: Cursor, half: u32) -> Cursor
    requires { RoomFor (mark_run half) out.old from }
    ensures { Put (mark_run half) out.old from out.new result }
{
    bits::put_bits(out, from, bits::mark_bits(half), half)
}

// Puts a list of `count` values, each in `width` bits: `per` at a time, as one field, and in the end as many as are left. `field` gives `per` of them, from an
// index on. Inlined, so that it divides by a number that is known.
#[inline(always)]
fn put_list<F: Fn(usize) -> u32>(
    out: &mut [u8],
    from: Cursor,
    field: F,
    count: u32,
    per: u32,
    width: u32,
) -> Cursor
    requires { ((i : ℕ) → i ≤ count → F.pre field i) × (0 < per) × (width * per ≤ 25) × RoomFor (list_run (λ i. i) width count) out.old from }
    ensures { (f : ℕ → ℕ) → ((i r : ℕ) → i ≤ count → F.post field i r → r ≡ group f width i per) → Put (list_run f width count) out.old from out.new result }
{
    let full = count / per;
    let left = count % per;
    let mut to = from;
    for j in 0..full {
        to = bits::put_bits(out, to, width * per, field((j * per) as usize));
    }
    if left == 0 {
        return to;
    }
    let last = field((full * per) as usize);
    bits::put_bits(out, to, width * left, last >> (width * (per - left)))
}

// Puts a list of `count` facts, or consulted entries, by their width.
#[tactic(auto, using(crate::specs::FlatLaws::list_room))]
fn put_entries(
    out: &mut [u8],
    from: Cursor,
    words: &[u32],
    at: usize,
    count: u32,
    width: u32,
) -> Cursor
    requires { (at < 2 ^ 32) × (width ≤ 12) × RoomFor (list_run (entry_in (drop at words.now)) width count) out.old from }
    ensures { Put (list_run (entry_in (drop at words.now)) width count) out.old from out.new result }
{
    put_list(
        out,
        from,
        |i| entries_at(words, at, i, width),
        count,
        2,
        width,
    )
}

impl Node<'_> {
    ghost use Rattle.pack.specs.Places.{obligations, grant, permit, deny, plain, run};

    // Puts the obligations of a Grant or a PermitWithTrace. Inlined, so that no loop keeps its nodes in memory for it.
    #[inline(always)]
    #[tactic(auto, using(crate::specs::FlatLaws::list_room))]
    fn put_obligations(&self, out: &mut [u8], from: Cursor) -> Cursor
        requires { RoomFor (obligations self.now) out.old from }
        ensures { Put (obligations self.now) out.old from out.new result }
    {
        let words = self.words;
        let at = self.at + 2;
        put_list(
            out,
            from,
            |i| obligations_at(words, at, i),
            self.obligations(),
            4,
            bits::OBLIGATION_BITS,
        )
    }

    // Puts a Grant up to its condition.
    fn put_grant(&self, out: &mut [u8], from: Cursor) -> Cursor
        requires { RoomFor (grant self.now) out.old from }
        ensures { Put (grant self.now) out.old from out.new result }
    {
        let word = self.first();
        let second = self.second();
        let lead = bits::put_bits(
            out,
            from,
            bits::GRANT_LEAD_BITS,
            word / policy_model::OBLIGATIONS,
        );
        let outcome = bits::put_bits(out, lead, bits::OUTCOME_BITS, word);
        let label = put_mark(out, outcome, second / policy_model::HALF);
        let reason = put_mark(out, label, second % policy_model::HALF);
        self.put_obligations(out, reason)
    }

    // Puts a PermitWithTrace. It has no shape bit.
    fn put_permit_trace(&self, out: &mut [u8], from: Cursor) -> Cursor
        requires { RoomFor (permit self.now) out.old from }
        ensures { Put (permit self.now) out.old from out.new result }
    {
        let second = self.second();
        let owed = self.obligations();
        let lead = bits::put_bits(
            out,
            from,
            bits::PERMIT_WITH_TRACE_LEAD_BITS,
            policy_model::KIND_PERMIT_WITH_TRACE * policy_model::OBLIGATION_COUNTS + owed,
        );
        let outcome = bits::put_bits(out, lead, bits::OUTCOME_BITS, self.first());
        let label = put_mark(out, outcome, second / policy_model::HALF);
        let count = bits::put_bits(out, label, bits::COUNT_BITS, second);
        let obligations = self.put_obligations(out, count);
        put_entries(
            out,
            obligations,
            self.words,
            self.at + 2 + policy_model::obligation_words(owed),
            second % policy_model::COUNTS,
            bits::FACT_BITS,
        )
    }

    // Puts a DenyWithTrace.
    fn put_deny_trace(&self, out: &mut [u8], from: Cursor) -> Cursor
        requires { RoomFor (deny self.now) out.old from }
        ensures { Put (deny self.now) out.old from out.new result }
    {
        let word = self.first();
        let second = self.second();
        let third = self.third();
        let lead = bits::put_bits(
            out,
            from,
            bits::DENY_WITH_TRACE_LEAD_BITS,
            word / policy_model::DENIED,
        );
        let outcome = bits::put_bits(out, lead, bits::denied_bits(word), word);
        let label = put_mark(out, outcome, second / policy_model::HALF);
        let reason = put_mark(out, label, second % policy_model::HALF);
        let count = bits::put_bits(out, reason, bits::COUNT_BITS, third);
        put_entries(
            out,
            count,
            self.words,
            self.at + 3,
            third % policy_model::COUNTS,
            bits::FACT_BITS,
        )
    }

    // Puts a node without lists, by its bits: its kind stands first in its word already, and its other field, if it has one, moves there from the end.
    fn put_plain(&self, out: &mut [u8], from: Cursor, bits: u32) -> Cursor
        requires { (bits ≡ length (plain self.now)) × RoomFor (plain self.now) out.old from }
        ensures { Put (plain self.now) out.old from out.new result }
    {
        let word = self.first();
        let other = ((u64::from(word) << (32 - bits)) % u64::from(policy_model::KIND)) as u32;
        bits::put_leading(out, from, bits, self.kind() * policy_model::KIND + other)
    }

    // Puts a node.
    #[tactic(auto, using(crate::specs::FlatLaws::node_kinds, crate::specs::Room::same_room, crate::proofs::Putting::same_put))]
    fn put(&self, out: &mut [u8], from: Cursor) -> Cursor
        requires { RoomFor (run self.now) out.old from }
        ensures { Put (run self.now) out.old from out.new result }
    {
        match self.kind() {
            policy_model::KIND_GRANT => self.put_grant(out, from),
            policy_model::KIND_PERMIT_WITH_TRACE => self.put_permit_trace(out, from),
            policy_model::KIND_DENY_WITH_TRACE => self.put_deny_trace(out, from),
            _ => self.put_plain(out, from, self.plain_bits()),
        }
    }
}

impl Tree<'_> {
    ghost use Rattle.pack.specs.Places.{nodes};

    // Puts its nodes.
    fn put_nodes(&self, out: &mut [u8], from: Cursor) -> Cursor
        requires { RoomFor (nodes self.now) out.old from }
        ensures { Put (nodes self.now) out.old from out.new result }
    {
        let words = self.words;
        let mut at = self.from;
        let mut to = from;
        // a `while`: each node says itself where the next one begins
        while at < words.len() {
            let node = Node { words, at };
            if let Some(bits) = node.bits_without_lists() {
                to = node.put_plain(out, to, bits);
                at += 1;
            } else {
                to = node.put(out, to);
                at = node.end();
            }
        }
        to
    }
}

// What is packed: words that were checked.
trait Packs {
    ghost run: { Self → List ℕ };

    // The bits that it takes.
    fn size(&self) -> usize
        ensures is { result ≡ length (run self.now) }
        ensures few { result ≤ 2 ^ 33 };

    // Puts them.
    fn put(&self, out: &mut [u8])
        requires { Room 0 (run self.now) out.old }
        ensures { Spliced out.old out.new 0 (run self.now) (length (run self.now)) };
}

// Packs it, if there is room. The length is known before a byte changes, and no more bytes are lent than it needs, so that those after them stay as they were.
#[tactic(auto, using(crate::proofs::Whole::packing))]
fn pack<P: Packs>(what: &P, out: &mut [u8]) -> Answer
    ensures { Packed (P.run what.now) out.old out.new result }
{
    let size = what.size().div_ceil(8);
    if out.len() < size {
        return Err(Refusal::Room);
    }
    what.put(&mut out[..size]);
    Ok(size)
}

// A sheet is its tree.
impl Packs for Tree<'_> {
    ghost use Rattle.pack.specs.Places.{nodes};

    ghost run = { nodes };

    fn size(&self) -> usize {
        self.measure()
    }

    #[tactic(auto, using(crate::specs::Room::room_begins, crate::proofs::Putting::put_whole))]
    fn put(&self, out: &mut [u8]) {
        self.put_nodes(out, bits::START);
    }
}

// Packs a sheet.
pub fn pack_sheet(words: &[u32], out: &mut [u8]) -> Answer
    ensures { Answered (pack_sheet words.now (length out.old)) out.old out.new result }
{
    policy_model::check_sheet(words, outcome::SETS)?;
    pack(&Tree { words, from: 0 }, out)
}

// A record is its lead, the consulted entries and the tree, all in the words of the tree.
#[derive(Clone, Copy)]
struct Record<'a> {
    tree: Tree<'a>,
    consulted: u32,
    ghost some: { 0 < length tree.words.now },
    ghost listed: { consulted < 4096 },
}

impl Packs for Record<'_> {
    ghost run = { λ r. record_run r.tree.words.now r.consulted r.tree.from };

    #[tactic(auto, using(crate::specs::FlatLaws::length_record))]
    fn size(&self) -> usize {
        (bits::RECORD_LEAD_BITS + bits::ENTRY_BITS * self.consulted) as usize + self.tree.measure()
    }

    fn put(&self, out: &mut [u8]) {
        let words = self.tree.words;
        // the lead is the whole first word, and a field has no more than 25 bits
        let half = bits::RECORD_LEAD_BITS / 2;
        let first = bits::put_bits(out, bits::START, half, words[0] / policy_model::HALF);
        let second = bits::put_bits(out, first, half, words[0]);
        let consulted = put_entries(out, second, words, 1, self.consulted, bits::ENTRY_BITS);
        self.tree.put_nodes(out, consulted);
    }
}

// Packs a record.
pub fn pack_record(words: &[u32], out: &mut [u8]) -> Answer
    ensures { Answered (pack_record words.now (length out.old)) out.old out.new result }
{
    let head = policy_model::check_record(words, outcome::SETS)?;
    let tree = Tree {
        words,
        from: head.tree,
    };
    pack(
        &Record {
            tree,
            consulted: head.consulted,
        },
        out,
    )
}
