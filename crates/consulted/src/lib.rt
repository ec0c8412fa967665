// The consulted list, after gatekeep's `Consulted`: its entries, how many are in use, and the set of the facts that are listed. Entries and set are lent,
// as 2 KiB by value would be copied for each fact that is read.
#![tactic(auto)]

ghost use Rattle.std.specs.Prelude.{◌≡◌, ◌<◌, length as long};
ghost use Rattle.model.specs.Facts.{fact_count};
ghost use Rattle.facts.specs.Answers.{presence_of};
ghost use Rattle.fact_set.specs.Sets.{Contained};
ghost use Rattle.consulted.specs.Lists.{entries_with, length_with, list_with};
ghost use Rattle.consulted.specs.Listing.{held, Recorded};

use facts::Presence;

// Entries and length are document 01's form of the list.
#[derive(Drop)]
pub struct Consulted<'a> {
    pub entries: &'a mut [u16],
    pub seen: &'a mut [u64],
    pub length: usize,
}

// Puts the entry at the end, unless its fact is listed `already`, and returns how many are in use then. Slice, length and flag are plain values: document 01
// has `record` thin over such a core, and the set says whether the fact is listed.
fn recorded(entries: &mut [u16], length: usize, already: bool, entry: u16) -> usize
    requires { length < long entries.old }
    ensures listed { (result ≡ length_with length already) × (entries.new ≡ entries_with entries.old length already entry) }
{
    if already {
        return length;
    }
    entries[length] = entry;
    length + 1
}

impl<'a> Consulted<'a> {
    // Whether the fact is listed.
    pub fn lists(&self, fact: u32) -> bool
        ensures { Contained fact self.now.seen.now result }
    {
        fact_set::contains(&*self.seen, fact)
    }

    // `recorded` of a list that is lent. The set of its facts is `consult`'s.
    fn record(&mut self, already: bool, entry: u16)
        requires { self.old.length < long self.old.entries.now }
        ensures { self.new ≡ list_with self.old already entry }
    {
        self.length = recorded(&mut *self.entries, self.length, already, entry);
    }

    // Lists the fact with its presence, unless it is listed already or the entries are full.
    pub fn consult(&mut self, fact: u32, presence: Presence)
        requires { fact < fact_count }
        ensures { Recorded fact (presence_of presence) (held self.old) (held self.new) }
    {
        if self.entries.len() <= self.length {
            return;
        }
        let already = self.lists(fact);
        self.record(already, facts::entry(fact, presence));
        if !already {
            fact_set::insert(&mut *self.seen, fact);
        }
    }
}
