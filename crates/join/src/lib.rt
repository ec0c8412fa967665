// Two relays' tables joined: what both know, or a numbered refusal that leaves the output as it was. The work is done by bytes, four fields at once, in
// loops that have no way out before their end, so they are compiled to work on many bytes at a time.
#![tactic(auto)]

ghost use Rattle.std.specs.Prelude.{◌≡◌, ◌&&◌, true, [], ◌≤◌, eqb, length, take, drop};
ghost use Rattle.model.specs.Facts.{table_fields};
ghost use Rattle.model.specs.Join.{joined_bytes, join_tables};
ghost use Rattle.laws.specs.Lists.{Below};
ghost use Rattle.packing.specs.Written.{Written};
ghost use Rattle.answer.specs.Answers.{Answered, copied};
ghost use Rattle.join.specs.Joining.{agree, bytes_agree, join_byte, Clean, NoThree};

use answer::Answer;
use facts::TableKind;
use refusal::Refusal;

// Two tables without a 3, the shorter one second.
#[derive(Clone, Copy)]
struct Tables<'a> {
    longer: &'a [u8],
    shorter: &'a [u8],
    ghost ordered: { length shorter.now ≤ length longer.now },
    ghost longer_clean: { NoThree longer.now },
    ghost shorter_clean: { NoThree shorter.now },
}

// A mark in each field that is Present in one byte and Absent in the other: there, and nowhere else, the bits that differ are 1, which `^ 2` makes 3.
#[tactic(auto, using(crate::specs::JoiningLaws::clash_mask))]
fn clash_marks(a: u8, b: u8) -> u8
    requires { Clean a × Clean b }
    ensures { eqb result 0 ≡ bytes_agree a b }
{
    facts::marks_of_three(a ^ b ^ facts::UPPER_BITS)
}

// The fields of two bytes joined: Present in either is Present, and Unknown in both is Unknown.
#[tactic(auto, using(crate::specs::JoiningLaws::join_mask))]
fn join_byte(a: u8, b: u8) -> u8
    requires { Clean a × Clean b × (bytes_agree a b ≡ true) }
    ensures { result ≡ join_byte a b }
{
    (a & b) | ((a | b) & facts::LOWER_BITS)
}

// Whether the rest of a table agrees with one that has ended, which reads Absent.
#[tactic(auto, using(crate::specs::JoiningLaws::clean_byte, crate::proofs::Passing::pass_end))]
fn agree_after(rest: &[u8]) -> bool
    requires { Below 3 (table_fields rest.now) }
    ensures { result ≡ agree (table_fields rest.now) [] }
{
    let mut marked = 0;
    for byte in rest {
        marked |= clash_marks(*byte, 0);
    }
    marked == 0
}

impl Tables<'_> {
    // Whether they agree as far as both have bytes.
    #[tactic(auto, using(crate::specs::JoiningLaws::clean_at, crate::proofs::Passing::pass_bytes))]
    fn agree_in_both(&self) -> bool
        ensures { agree (table_fields self.now.longer.now) (table_fields self.now.shorter.now) ≡ (result && agree (table_fields (drop (length self.now.shorter.now) self.now.longer.now)) []) }
    {
        let mut marked = 0;
        for (i, byte) in self.shorter.iter().enumerate() {
            marked |= clash_marks(self.longer[i], *byte);
        }
        marked == 0
    }

    // Whether no fact is Present in one and Absent in the other.
    fn agree(&self) -> bool
        ensures { result ≡ agree (table_fields self.now.longer.now) (table_fields self.now.shorter.now) }
    {
        self.agree_in_both() && agree_after(&self.longer[self.shorter.len()..])
    }

    // Writes the bytes that both have, joined.
    #[tactic(auto, using(crate::specs::JoiningLaws::clean_at, crate::specs::JoiningLaws::agree_at))]
    fn write_joined(&self, out: &mut [u8])
        requires { (agree (table_fields self.now.longer.now) (table_fields self.now.shorter.now) ≡ true) × (length self.now.shorter.now ≤ length out.old) }
        ensures { Written (take (length self.now.shorter.now) (joined_bytes self.now.longer.now self.now.shorter.now)) out.old out.new (length self.now.shorter.now) }
    {
        for (i, byte) in self.shorter.iter().enumerate() {
            out[i] = join_byte(self.longer[i], *byte);
        }
    }

    // Writes the join of tables that agree, if there is room for it. Where one has ended, the other is Absent or yields to that.
    #[tactic(auto, using(answer::proofs::Writing::copy_no_room, crate::specs::JoiningLaws::length_joined))]
    fn put_join(&self, out: &mut [u8]) -> Answer
        requires { agree (table_fields self.now.longer.now) (table_fields self.now.shorter.now) ≡ true }
        ensures { Answered (copied (joined_bytes self.now.longer.now self.now.shorter.now) (length out.old)) out.old out.new result }
    {
        let size = self.longer.len();
        if out.len() < size {
            return Err(Refusal::Room);
        }
        self.write_joined(out);
        out[self.shorter.len()..size].fill(0);
        Ok(size)
    }
}

// Joins two tables, of which the second is not the longer. Turned back are a length, a 3 in either, a clash.
fn join_longer(longer: &[u8], shorter: &[u8], out: &mut [u8]) -> Answer
    requires { length shorter.now ≤ length longer.now }
    ensures { Answered (join_tables longer.now shorter.now (length out.old)) out.old out.new result }
{
    if longer.len() > facts::TABLE_BYTES {
        return Err(Refusal::TableLength);
    }
    facts::check_table(longer, TableKind::Partial)?;
    facts::check_table(shorter, TableKind::Partial)?;
    let tables = Tables { longer, shorter };
    if !tables.agree() {
        return Err(Refusal::Clash);
    }
    tables.put_join(out)
}

// Joins two tables, in either order.
pub fn join_tables(one: &[u8], two: &[u8], out: &mut [u8]) -> Answer
    ensures { Answered (join_tables one.now two.now (length out.old)) out.old out.new result }
{
    if one.len() < two.len() {
        return join_longer(two, one, out);
    }
    join_longer(one, two, out)
}
