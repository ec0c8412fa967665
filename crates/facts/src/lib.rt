// Fact tables, after gatekeep's facts.rs: what a table says of a fact, how that is set, or stands in a consulted entry, and the fault that turns a table back.
#![tactic(auto)]

ghost use Rattle.std.specs.Prelude.{◌≡◌, ◌/◌, ◌≤◌, ◌<◌, eqb, length, get_or, set};
ghost use Rattle.model.specs.Fields.{split};
ghost use Rattle.model.specs.Facts.{fact_count, table_fields, table_of, field_fault, first_fault, table_bytes, table_fault};
ghost use Rattle.model.specs.Facts.{partial_facts};
ghost use Rattle.model.specs.Consulted.{contradicts};
ghost use Rattle.model.specs.Writing.{entry_field, seen_in};
ghost use Rattle.facts.specs.Answers.{presence_of, presence_number, Reads, entry_of, is_present, is_settled, kind_of, no_fault};
ghost use Rattle.refusal.specs.Numbers.{refused};

use refusal::Refusal;

// What a table says of a fact: 0, 1 and 2 in a table and in a consulted entry. Silent, where the table ended before the fact, is 3 in an entry alone.
#[derive(Clone, Copy, PartialEq, Eq)]
pub enum Presence {
    Absent = 0,
    Present = 1,
    Unknown = 2,
    Silent = 3,
}

// How many presences there are.
pub const PRESENCES: u32 = 4;

// The presence of a consulted entry stands above its fact and four zero bits.
pub const ABOVE_FACT: u32 = 16384;

const ABOVE_FACT_16: u16 = ABOVE_FACT as u16;

// A table has at most this many bytes.
pub const TABLE_BYTES: usize = 256;

// The two bits of each field of a table's byte, and both bits of its first field.
pub const UPPER_BITS: u8 = 0b1010_1010;

pub const LOWER_BITS: u8 = 0b0101_0101;

const FIRST_FIELD: u8 = 0b1100_0000;

// A known table holds no Unknown.
#[derive(Clone, Copy, PartialEq, Eq)]
pub enum TableKind {
    Partial,
    Known,
}

// The field of a fact, 0 past the end. It stays a number: 3 is a fault here and Silent in an entry. A fact is a plain number as well, the last ten bits of a
// word: a type of its own would be made at each read and taken apart at once. The place in the byte is a shift, so nothing branches on it.
fn field(facts: &[u8], fact: u32) -> u8
    ensures { result ≡ get_or (table_fields facts.now) fact 0 }
{
    match facts.get((fact / 4) as usize) {
        Some(byte) => (*byte >> (6 - fact % 4 * 2)) % 4,
        None => 0,
    }
}

impl Presence {
    // Its number.
    fn number(self) -> u16
        ensures { result ≡ presence_number self }
    {
        self as u16
    }

    // What the table says of a fact. A field of 3, which no accepted table holds, reads Unknown.
    pub fn of(facts: &[u8], fact: u32) -> Presence
        ensures { Reads result (table_of facts.now fact) }
    {
        if facts.len() <= (fact / 4) as usize {
            return Presence::Silent;
        }
        match field(facts, fact) {
            0 => Presence::Absent,
            1 => Presence::Present,
            _ => Presence::Unknown,
        }
    }

    // Whether one is Present and the other Absent.
    pub fn contradicts(self, other: Presence) -> bool
        ensures { result ≡ contradicts (presence_of self) (presence_of other) }
    {
        matches!(
            (self, other),
            (Presence::Present, Presence::Absent) | (Presence::Absent, Presence::Present)
        )
    }
}

// A consulted entry: presence (2), zero (4), fact (10).
pub fn entry(fact: u32, presence: Presence) -> u16
    requires { fact < fact_count }
    ensures { result ≡ entry_field (entry_of fact presence) }
{
    presence.number() * ABOVE_FACT_16 + fact as u16
}

// The presence in a consulted entry. No `From`: not every number is an entry, and in a table's field 3 reads otherwise.
pub fn entry_presence(half: u32) -> Presence
    ensures { Reads result (seen_in (half / 16384)) }
{
    match half / ABOVE_FACT {
        0 => Presence::Absent,
        1 => Presence::Present,
        2 => Presence::Unknown,
        _ => Presence::Silent,
    }
}

// A byte of a table with a value in one of its four fields: so many times the lower bits have it in all four. The place is a shift, so nothing branches on it.
fn with_field(byte: u8, place: u32, value: u8) -> u8
    requires { (place < 4) × (value < 4) }
    ensures { split 2 4 result ≡ set (split 2 4 byte) place value }
{
    let mask = FIRST_FIELD >> (place * 2);
    byte - (byte & mask) + (value * LOWER_BITS & mask)
}

// Sets the field of a fact, in a table as long as one can be.
#[inline]
#[tactic(auto, using(crate::proofs::Fields::fields_set))]
pub fn set_presence(table: &mut [u8; TABLE_BYTES], fact: u32, presence: Presence)
    requires { fact < fact_count }
    ensures { table_fields table.new ≡ set (table_fields table.old) fact (presence_number presence) }
{
    let at = (fact / 4) as usize;
    table[at] = with_field(table[at], fact % 4, presence as u8);
}

// Whether the table has the fact as Present.
pub fn present(facts: &[u8], fact: u32) -> bool
    ensures { result ≡ is_present (table_of facts.now fact) }
{
    field(facts, fact) == 1
}

// Whether the table has the fact as Present or Absent, silence being Absent.
pub fn settled(facts: &[u8], fact: u32) -> bool
    ensures { result ≡ is_settled (table_of facts.now fact) }
{
    field(facts, fact) < 2
}

// Whether a field of this value is at fault.
fn check_field(value: u8, kind: TableKind) -> Result<(), Refusal>
    ensures { refused result ≡ field_fault (kind_of kind) value }
{
    match (value, kind) {
        (0 | 1, _) | (2, TableKind::Partial) => Ok(()),
        (2, TableKind::Known) => Err(Refusal::UnknownFact),
        _ => Err(Refusal::TableField),
    }
}

// The first fault from fact 0 on.
fn check_fields(facts: &[u8], kind: TableKind) -> Result<(), Refusal>
    requires { length facts.now ≤ table_bytes }
    ensures { refused result ≡ first_fault (kind_of kind) (table_fields facts.now) }
{
    for fact in 0..facts.len() as u32 * 4 {
        check_field(field(facts, fact), kind)?;
    }
    Ok(())
}

// A mark in each field of a byte that is 3: such a field has both bits.
pub fn marks_of_three(byte: u8) -> u8
    ensures { eqb result 0 ≡ no_fault (first_fault partial_facts (split 2 4 byte)) }
{
    byte & (byte / 2) & LOWER_BITS
}

// A mark in each field of a byte that is at fault: a 3, and in a known table whatever has the upper bit.
fn marks(byte: u8, kind: TableKind) -> u8
    ensures { eqb result 0 ≡ no_fault (first_fault (kind_of kind) (split 2 4 byte)) }
{
    match kind {
        TableKind::Partial => marks_of_three(byte),
        TableKind::Known => byte & UPPER_BITS,
    }
}

// Whether no field is at fault. The loop has no way out before its end, so it is compiled to work on many bytes at a time.
fn faultless(facts: &[u8], kind: TableKind) -> bool
    ensures { result ≡ no_fault (first_fault (kind_of kind) (table_fields facts.now)) }
{
    let mut marked = 0;
    for byte in facts {
        marked |= marks(*byte, kind);
    }
    marked == 0
}

// The fault of a table. Its fields are looked at one by one only where there is a fault among them.
pub fn check_table(facts: &[u8], kind: TableKind) -> Result<(), Refusal>
    ensures { refused result ≡ table_fault (kind_of kind) facts.now }
{
    if facts.len() > TABLE_BYTES {
        return Err(Refusal::TableLength);
    }
    if faultless(facts, kind) {
        return Ok(());
    }
    check_fields(facts, kind)
}
