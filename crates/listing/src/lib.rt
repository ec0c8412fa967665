// The listing of the program `sitting`: the bytes of a Resolved record and of a refusal, and the numbers of the program's input.
#![tactic(auto)]

ghost use Rattle.std.specs.Prelude.{◌≡◌, ◌++◌, ◌+◌, ◌*◌, ◌%◌, ◌<◌, ◌≤◌, length, drop, get_or};
ghost use Rattle.model.specs.Fields.{bits};
ghost use Rattle.model.specs.Reading.{got, shape_of};
ghost use Rattle.model.specs.Listing.{digit as digit_of, digits, text, decimal, newline, presence_text, refused_text, number_from};
ghost use Rattle.model.specs.Products.{read_record};
ghost use Rattle.laws.specs.FieldAt.{field_at};
ghost use Rattle.facts.specs.Answers.{presence_of};
ghost use Rattle.listing.specs.Texts.{Wrote, facts_room, lists_room, decision_room, consulted_room, listing_room, width_of, most_of, field_text, fields_text, permit_lists, permit_text, deny_head, deny_text, decision_text, ListedAs};
ghost use Rattle.listing.specs.Inputs.{word_in, WordsRead};

use facts::Presence;

// A listing takes no more bytes than this.
pub const LISTING_ROOM: usize = 81920;

// What a list of a record holds: obligations of 8 bits, facts or consulted entries of 16.
#[derive(Clone, Copy)]
enum Listed {
    Obligations,
    Facts,
    Consulted,
}

// A list of a record: so many fields of one kind, from a position of the words on.
#[derive(Drop)]
struct Fields<'a> {
    words: &'a [u32],
    at: usize,
    count: usize,
    kind: Listed,
    ghost near: { at + count < 65536 },
}

// A record's decision: the node 12 or 13 at a position of the words.
#[derive(Drop)]
struct Node<'a> {
    words: &'a [u32],
    at: usize,
    ghost near: { at < 4096 },
}

// ---- bytes

// Copies bytes to the front of the output, and returns how many.
fn copy(src: &[u8], out: &mut [u8]) -> usize
    requires { length src.now ≤ length out.old }
    ensures count { result ≡ length src.now }
    ensures copied { out.new ≡ src.now ++ drop (length src.now) out.old }
{
    out[..src.len()].copy_from_slice(src);
    src.len()
}

// ---- numbers
// They are printed by hand and not by `write!`: the listing stands in a slice that is lent, as nothing is on the heap, and its contract says its bytes.

// A digit's byte, in capitals.
fn digit(value: u32) -> u8
    requires { value < 16 }
    ensures { result ≡ digit_of value }
{
    if value < 10 {
        b'0' + value as u8
    } else {
        b'A' - 10 + value as u8
    }
}

// The last `count` digits of a number.
fn put_digits(value: u32, base: u32, count: usize, out: &mut [u8]) -> usize
    requires { (0 < base) × (base ≤ 16) × (count ≤ length out.old) }
    ensures { Wrote (digits base count value) out.old out.new result }
{
    let mut rest = value;
    for left in (0..count).rev() {
        out[left] = digit(rest % base);
        rest /= base;
    }
    count
}

// How many decimal digits a number below 10,000 has.
fn places(value: u32) -> usize
    ensures { (result ≤ 4) × (decimal value ≡ digits 10 result value) }
{
    match value {
        0..=9 => 1,
        10..=99 => 2,
        100..=999 => 3,
        _ => 4,
    }
}

// A number below 10,000 in decimal. (Of a greater one, which no list holds, the last four digits.)
fn put_decimal(value: u32, out: &mut [u8]) -> usize
    requires { 4 ≤ length out.old }
    ensures { Wrote (decimal value) out.old out.new result }
{
    put_digits(value, 10, places(value), out)
}

// ---- lists

// `=` and the word for a presence.
fn put_presence(presence: Presence, out: &mut [u8]) -> usize
    requires { 8 ≤ length out.old }
    ensures { Wrote (text "=" ++ presence_text (presence_of presence)) out.old out.new result }
{
    match presence {
        Presence::Absent => copy(b"=absent", out),
        Presence::Present => copy(b"=present", out),
        Presence::Unknown => copy(b"=unknown", out),
        Presence::Silent => copy(b"=silent", out),
    }
}

// A consulted entry: presence (2), zero (4), fact (10).
#[tactic(auto, using(crate::specs::WriterLaws::wrote_then), unfolding(crate::specs::Texts::field_text))]
fn put_entry(field: u32, out: &mut [u8]) -> usize
    requires { 12 ≤ length out.old }
    ensures { Wrote (field_text Listed.Consulted field) out.old out.new result }
{
    let n = put_decimal(field % policy_model::PRESENCE, out);
    n + put_presence(facts::entry_presence(field), &mut out[n..])
}

// One of a list.
#[tactic(auto, unfolding(crate::specs::Texts::field_text))]
fn put_field(field: u32, kind: Listed, out: &mut [u8]) -> usize
    requires { most_of kind ≤ 1 + length out.old }
    ensures { Wrote (field_text kind field) out.old out.new result }
{
    match kind {
        Listed::Obligations | Listed::Facts => put_decimal(field, out),
        Listed::Consulted => put_entry(field, out),
    }
}

// One more of a list.
fn put_next(field: u32, kind: Listed, out: &mut [u8]) -> usize
    requires { most_of kind ≤ length out.old }
    ensures { Wrote (text "," ++ field_text kind field) out.old out.new result }
{
    let n = copy(b",", out);
    n + put_field(field, kind, &mut out[n..])
}

impl<'a> Fields<'a> {
    // The field at a place.
    fn field_at(&self, place: usize) -> u32
        requires { place < 65536 }
        ensures { result ≡ field_at (width_of self.now.kind) (drop self.now.at self.now.words.now) place }
    {
        match self.kind {
            Listed::Obligations => {
                u32::from(packing::unpack_obligation(self.words, self.at, place))
            }
            Listed::Facts | Listed::Consulted => {
                u32::from(packing::unpack_entry(self.words, self.at, place))
            }
        }
    }

    // The list, comma-separated, `-` if empty.
    fn put_fields(&self, out: &mut [u8]) -> usize
        requires { 1 + most_of self.now.kind * self.now.count ≤ length out.old }
        ensures { Wrote (fields_text self.now.kind self.now.words.now self.now.at self.now.count) out.old out.new result }
    {
        if self.count == 0 {
            return copy(b"-", out);
        }
        let mut n = put_field(self.field_at(0), self.kind, out);
        for i in 1..self.count {
            n += put_next(self.field_at(i), self.kind, &mut out[n..]);
        }
        n
    }

    // The list after its name.
    fn put_named(&self, name: &[u8], out: &mut [u8]) -> usize
        requires { length name.now + (1 + most_of self.now.kind * self.now.count) ≤ length out.old }
        ensures { Wrote (name.now ++ fields_text self.now.kind self.now.words.now self.now.at self.now.count) out.old out.new result }
    {
        let n = copy(name, out);
        n + self.put_fields(&mut out[n..])
    }
}

// ---- decisions

// A permit's first lines, from the first word of a node 12.
fn put_products(word: u32, out: &mut [u8]) -> usize
    requires { 27 ≤ length out.old }
    ensures { Wrote (text "effect permit\nproducts " ++ digits 16 4 (word % 65536)) out.old out.new result }
{
    let n = copy(b"effect permit\nproducts ", out);
    n + put_digits(word % policy_model::HALF, 16, 4, &mut out[n..])
}

// A deny's first lines, from the first word of a node 13: it has no products and no obligations.
fn put_shape(word: u32, out: &mut [u8]) -> usize
    requires { 64 ≤ length out.old }
    ensures { Wrote (deny_head (shape_of (bits 27 1 word))) out.old out.new result }
{
    if word / policy_model::HIDDEN % 2 == 1 {
        copy(
            b"effect deny\nproducts ----\nshape hidden\nobligations -",
            out,
        )
    } else {
        copy(
            b"effect deny\nproducts ----\nshape forbidden\nobligations -",
            out,
        )
    }
}

impl Node<'_> {
    // Its word number `index`.
    fn word(&self, index: usize) -> u32
        requires { index ≤ 2 }
        ensures { result ≡ get_or self.now.words.now (self.now.at + index) 0 }
    {
        policy_model::word_at(self.words, self.at + index)
    }

    // Its facts, which begin at its word number `from`, as many as the end of a word says.
    fn put_facts(&self, from: usize, counted: u32, out: &mut [u8]) -> usize
        requires { (from < 64) × (facts_room ≤ length out.old) }
        ensures { Wrote (text "\nfacts " ++ fields_text Listed.Facts self.now.words.now (self.now.at + from) (counted % 4096)) out.old out.new result }
    {
        let facts = Fields {
            words: self.words,
            at: self.at + from,
            count: (counted % policy_model::COUNTS) as usize,
            kind: Listed::Facts,
        };
        facts.put_named(b"\nfacts ", out)
    }

    // A permit's obligations and facts.
    fn put_permit_lists(&self, out: &mut [u8]) -> usize
        requires { lists_room ≤ length out.old }
        ensures { Wrote (permit_lists self.now.words.now self.now.at) out.old out.new result }
    {
        let count = policy_model::obligations_of(self.word(0));
        let obligations = Fields {
            words: self.words,
            at: self.at + 2,
            count: count as usize,
            kind: Listed::Obligations,
        };
        let after = 2 + policy_model::obligation_words(count);
        let n = obligations.put_named(b"\nshape -\nobligations ", out);
        n + self.put_facts(after, self.word(1), &mut out[n..])
    }

    // A node 12.
    fn put_permit(&self, out: &mut [u8]) -> usize
        requires { decision_room ≤ length out.old }
        ensures { Wrote (permit_text self.now.words.now self.now.at) out.old out.new result }
    {
        let n = put_products(self.word(0), out);
        n + self.put_permit_lists(&mut out[n..])
    }

    // A node 13.
    #[tactic(auto, using(crate::specs::WriterLaws::wrote_then), unfolding(crate::specs::Texts::deny_text))]
    fn put_deny(&self, out: &mut [u8]) -> usize
        requires { decision_room ≤ length out.old }
        ensures { Wrote (deny_text self.now.words.now self.now.at) out.old out.new result }
    {
        let n = put_shape(self.word(0), out);
        n + self.put_facts(3, self.word(2), &mut out[n..])
    }

    // Either. Its kind is a number, as `policy_model` says.
    #[tactic(auto, using(crate::specs::WriterLaws::wrote_as), unfolding(crate::specs::Texts::decision_text))]
    fn put_decision(&self, out: &mut [u8]) -> usize
        requires { decision_room ≤ length out.old }
        ensures { Wrote (decision_text self.now.words.now self.now.at) out.old out.new result }
    {
        if self.word(0) / policy_model::KIND == policy_model::KIND_PERMIT_WITH_TRACE {
            self.put_permit(out)
        } else {
            self.put_deny(out)
        }
    }
}

// The last line.
fn put_consulted(words: &[u32], count: usize, out: &mut [u8]) -> usize
    requires { (count < 4096) × (consulted_room ≤ length out.old) }
    ensures { Wrote ((text "\nconsulted " ++ fields_text Listed.Consulted words.now 1 count) ++ newline) out.old out.new result }
{
    let entries = Fields {
        words,
        at: 1,
        count,
        kind: Listed::Consulted,
    };
    let n = entries.put_named(b"\nconsulted ", out);
    n + copy(b"\n", &mut out[n..])
}

// The listing of a Resolved record. Of other words nothing is said but that the bytes fit.
#[tactic(auto, using(crate::specs::RecordTextLaws::length_decision, crate::specs::RecordTextLaws::length_consulted))]
pub fn list_record(words: &[u32], out: &mut [u8]) -> usize
    requires { listing_room ≤ length out.old }
    ensures room { result ≤ listing_room }
    ensures listing { ListedAs (λ bytes. Wrote bytes out.old out.new result) (read_record words.now) }
{
    let consulted = policy_model::word_at(words, 0) % policy_model::COUNTS;
    let node = Node {
        words,
        at: 1 + policy_model::entry_words(consulted),
    };
    let n = node.put_decision(out);
    n + put_consulted(words, consulted as usize, &mut out[n..])
}

// A number and the line's end.
fn put_number(number: u32, out: &mut [u8]) -> usize
    requires { 5 ≤ length out.old }
    ensures { Wrote (decimal number ++ newline) out.old out.new result }
{
    let n = put_decimal(number, out);
    n + copy(b"\n", &mut out[n..])
}

// The listing of a refusal, by its number, which is all that it says of one. Any number is listed, so that nothing is asked of it.
pub fn list_refusal(number: u32, out: &mut [u8]) -> usize
    requires { 13 ≤ length out.old }
    ensures { Wrote (refused_text number) out.old out.new result }
{
    let n = copy(b"refused ", out);
    n + put_number(number, &mut out[n..])
}

// ---- the input: numbers, most significant byte first

// The 16 bits at a position.
pub fn number_at(input: &[u8], at: usize) -> u32
    requires { at + 2 ≤ length input.now }
    ensures { (number_from 0 2 (drop at input.now) ≡ got result (drop (at + 2) input.now)) × (result < 65536) }
{
    u32::from(u16::from_be_bytes([input[at], input[at + 1]]))
}

// The 32 bits at a position.
fn long_at(input: &[u8], at: usize) -> u32
    requires { at + 4 ≤ length input.now }
    ensures { result ≡ word_in input.now at }
{
    u32::from_be_bytes([input[at], input[at + 1], input[at + 2], input[at + 3]])
}

// Reads as many words as the output has, and says whether all their bytes are there. If not, it stays as it was.
#[tactic(auto, using(crate::specs::InputLaws::words_short), unfolding(laws::specs::FieldAt::firsts))]
pub fn read_words(input: &[u8], out: &mut [u32]) -> bool
    ensures { WordsRead input.now out.old out.new result }
{
    if input.len() / 4 < out.len() {
        return false;
    }
    for (i, word) in out.iter_mut().enumerate() {
        *word = long_at(input, 4 * i);
    }
    true
}
