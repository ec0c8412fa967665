// The tight form's bits, most significant first: fields in a run of bits that stands in bytes, and the widths of a node's fields.
#![tactic(auto)]

ghost use Rattle.std.specs.Prelude.{◌≡◌, ℕ, ◌+◌, ◌*◌, ◌^◌, ◌≤◌, ◌<◌, length, drop};
ghost use Rattle.model.specs.Fields.{joined};
ghost use Rattle.model.specs.Bits.{run_of};
ghost use Rattle.bits.specs.Widths.{plain_width, plain_node_width, mark_width, denied_width};
ghost use Rattle.bits.specs.WindowLaws.{window, Bytes4};
ghost use Rattle.bits.specs.Splice.{low, Stored};
ghost use Rattle.bits.specs.Cursors.{leading, FieldRoom, Put};

// ---- widths: a kind; an obligation count, an obligation, a fact, a consulted entry, a count, an outcome; a label or reason with its present bit; a shape; a
// present bit alone; a sheet number
pub const KIND_BITS: u32 = 4;

pub const OBLIGATION_COUNT_BITS: u32 = 7;

pub const OBLIGATION_BITS: u32 = 6;

pub const FACT_BITS: u32 = 10;

pub const ENTRY_BITS: u32 = 12;

pub const COUNT_BITS: u32 = 12;

pub const OUTCOME_BITS: u32 = 16;

pub const MARK_BITS: u32 = 16;

const SHAPE_BITS: u32 = 1;

pub const PRESENT_BITS: u32 = 1;

pub const SHEET_NUMBER_BITS: u32 = 16;

// ---- leads: what stands before the outcome of a node with lists, and before the consulted entries of a record
pub const GRANT_LEAD_BITS: u32 = KIND_BITS + SHAPE_BITS + OBLIGATION_COUNT_BITS;

pub const PERMIT_WITH_TRACE_LEAD_BITS: u32 = KIND_BITS + OBLIGATION_COUNT_BITS;

pub const DENY_WITH_TRACE_LEAD_BITS: u32 = KIND_BITS + SHAPE_BITS + PRESENT_BITS;

pub const RECORD_LEAD_BITS: u32 = KIND_BITS + SHEET_NUMBER_BITS + COUNT_BITS;

// The bits of a node without lists, and 0 for one with lists: by kinds, as `policy_model` numbers them. A table with an entry for each kind, so that
// nothing branches on which of those without lists it is: such a branch is often mispredicted.
const PLAIN_NODE_BITS: [u32; 16] = [
    KIND_BITS, // Always
    KIND_BITS, // Never
    KIND_BITS + FACT_BITS, // Has
    KIND_BITS, // Not
    KIND_BITS + COUNT_BITS, // All of conditions
    KIND_BITS + COUNT_BITS, // Any of conditions
    KIND_BITS + OUTCOME_BITS, // Permit
    KIND_BITS, // Deny
    0, // Grant
    KIND_BITS + COUNT_BITS, // All
    KIND_BITS + COUNT_BITS, // Any
    KIND_BITS, // OrElse
    0, // PermitWithTrace
    0, // DenyWithTrace
    0, // Resolved
    0, // Pending
];

// The bits of a node by its kind, if it has no lists. The loops ask it first, since most nodes have none.
#[tactic(auto, unfolding(crate::specs::Widths::plain_node_width, crate::specs::Widths::has_lists, crate::specs::Widths::plain_width))]
pub fn plain_node_bits(kind: u32) -> Option<u32>
    ensures { result ≡ plain_node_width kind }
{
    if kind >= 16 {
        return None;
    }
    match PLAIN_NODE_BITS[kind as usize] {
        0 => None,
        bits => Some(bits),
    }
}

// The bits of a node without lists after its kind: a fact, a count, an outcome, or none. A kind is a number: it is a field of document 01's form.
#[tactic(auto, unfolding(crate::specs::Widths::plain_node_width, crate::specs::Widths::has_lists, crate::specs::Widths::plain_width))]
pub fn plain_bits(kind: u32) -> u32
    ensures is { result ≡ plain_width kind }
    ensures few { result ≤ 16 }
{
    match plain_node_bits(kind) {
        Some(bits) => bits - KIND_BITS,
        None => 0,
    }
}

// The bits of a label or reason: an absent one has its present bit only.
#[tactic(auto, unfolding(crate::specs::Widths::mark_width))]
pub fn mark_bits(half: u32) -> u32
    ensures { result ≡ mark_width half }
{
    if half < policy_model::MARKED {
        PRESENT_BITS
    } else {
        MARK_BITS
    }
}

// The bits of a DenyWithTrace's outcome after its present bit.
#[tactic(auto, unfolding(crate::specs::Widths::denied_width))]
pub fn denied_bits(word: u32) -> u32
    ensures { result ≡ denied_width word }
{
    if word / policy_model::DENIED % 2 == 1 {
        OUTCOME_BITS
    } else {
        0
    }
}

// Four bytes as one number, 0 past the end: one test where all are there, as they nearly always are.
fn window_at(bytes: &[u8], at: usize) -> u32
    requires { at < 2 ^ 62 }
    ensures is { result ≡ window (drop at bytes.now) }
    ensures bytes { Bytes4 (drop at bytes.now) }
{
    if at + 3 < bytes.len() {
        return u32::from_be_bytes([bytes[at], bytes[at + 1], bytes[at + 2], bytes[at + 3]]);
    }
    u32::from_be_bytes([
        policy_model::value_at(bytes, at, 0),
        policy_model::value_at(bytes, at + 1, 0),
        policy_model::value_at(bytes, at + 2, 0),
        policy_model::value_at(bytes, at + 3, 0),
    ])
}

// The field of `width` bits that begins at bit `at`, with 0 bits past the end. It lies in at most four bytes.
pub fn bits_at(bytes: &[u8], at: usize, width: u32) -> u32
    requires { width ≤ 25 }
    ensures is { result ≡ joined 1 width (drop at (run_of bytes.now)) }
    ensures fits { result < 2 ^ width }
{
    let skipped = (at % 8) as u32;
    ((u64::from(window_at(bytes, at / 8)) >> (32 - skipped - width)) % (1 << width)) as u32
}

// Stores the first `count` of a number's four bytes, where there is no room for all. Each count has its copy, so that its length is known and it is no call.
#[cold]
#[inline(never)]
fn put_some_bytes(window: u32, count: usize, out: &mut [u8])
    requires { (count ≤ 3) × (count ≤ length out.old) }
    ensures { Stored count window out.old out.new }
{
    let bytes = window.to_be_bytes();
    match count {
        0 => (),
        1 => out[..1].copy_from_slice(&bytes[..1]),
        2 => out[..2].copy_from_slice(&bytes[..2]),
        _ => out[..3].copy_from_slice(&bytes[..3]),
    }
}

// The same, or all four where there is room, as there nearly always is: so nothing branches on a count.
fn put_bytes(window: u32, count: usize, out: &mut [u8])
    requires { (count ≤ 4) × (count ≤ length out.old) }
    ensures { Stored count window out.old out.new }
{
    if out.len() < 4 {
        put_some_bytes(window, count, out);
    } else {
        out[..4].copy_from_slice(&window.to_be_bytes());
    }
}

// Where a run of bits goes on: its next bit, and what is begun of that bit's byte, as the first of 32 bits, the others 0. It goes from field to field by value,
// and beside the output that is lent, not in one struct with it: so it stays in registers, and no field waits for the byte that the last one stored.
#[derive(Clone, Copy)]
pub struct Cursor {
    pub at: usize,
    pub begun: u32,
}

// Where nothing is begun.
pub const START: Cursor = Cursor { at: 0, begun: 0 };

// Puts a field that is the leading bits of 32, the others 0, and 0 bits to the end of its last byte. The bytes after it may change.
pub fn put_leading(out: &mut [u8], from: Cursor, width: u32, field: u32) -> Cursor
    requires { (width ≤ 25) × FieldRoom width out.old from }
    ensures { (v : ℕ) → field ≡ leading width v → Put (low width v) out.old from out.new result }
{
    let skipped = (from.at % 8) as u32;
    let end = skipped + width;
    let window = from.begun + (field >> skipped);
    put_bytes(window, ((end + 7) / 8) as usize, &mut out[from.at / 8..]);
    Cursor {
        at: from.at + width as usize,
        begun: ((u64::from(window) << (end / 8 * 8)) % (1 << 32)) as u32,
    }
}

// Puts the low `width` bits of a number.
pub fn put_bits(out: &mut [u8], from: Cursor, width: u32, value: u32) -> Cursor
    requires { (width ≤ 25) × FieldRoom width out.old from }
    ensures { Put (low width value) out.old from out.new result }
{
    put_leading(
        out,
        from,
        width,
        ((u64::from(value) << (32 - width)) % (1 << 32)) as u32,
    )
}
