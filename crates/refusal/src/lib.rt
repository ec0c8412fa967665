// Why a call is turned back: the numbered causes of document 01's table, and of the requests after it.
#![tactic(auto)]

ghost use Rattle.std.specs.Prelude.{◌≡◌, ◌*◌, ◌^◌};
ghost use Rattle.refusal.specs.Numbers.{number_of};

// Each cause stands for its number. 9 is free: obligations may repeat.
#[derive(Clone, Copy, Debug, PartialEq, Eq)]
pub enum Refusal {
    // sheet, record, tight form or batch out of its range
    Length = 1,
    // table over 256 bytes
    TableLength = 2,
    // field 3 in a table
    TableField = 3,
    // Unknown in a known table
    UnknownFact = 4,
    // kind not allowed here
    Kind = 5,
    // words end too early
    WordsEnd = 6,
    // 33rd level
    Level = 7,
    // a field that must be 0 isn't, or holds what its list, its count or an outcome table doesn't allow
    Field = 8,
    // words after the tree
    WordsAfterTree = 10,
    // result longer than the output or a record, or with a list that is too long for its count
    Room = 11,
    // no date of 1900 to 2199
    Date = 12,
    // list of windows, or the table for it
    Windows = 13,
    // Present in one of two joined tables, Absent in the other
    Clash = 14,
    // no register of sheets
    Register = 15,
    // record of another sheet, or a number that no record carries
    SheetNumber = 16,
    // a narrowing's table against what the record consulted
    Contradiction = 17,
    // more nodes than a batch has left
    Allowance = 18,
    // bits of a tight form end too early
    BitsEnd = 19,
    // what follows a tight form's fields
    Filler = 20,
    // outcome table that is not accepted
    OutcomeTable = 21,
}

impl Refusal {
    // Its number.
    pub fn number(self) -> u32
        ensures { result ≡ number_of self }
    {
        self as u32
    }

    // Its number above 32 zero bits: what a call that it turns back returns.
    pub fn high_half(self) -> u64
        ensures { result ≡ number_of self * 2 ^ 32 }
    {
        u64::from(self.number()) << 32
    }
}
