// A later reading against what a record consulted.
#![tactic(auto)]

ghost use Rattle.model.specs.Facts.{table_of};
ghost use Rattle.contradiction.specs.Contradicted.{Contradicted};

use facts::Presence;

// Whether the table contradicts one of the `consulted` entries after the first word. They are looked at as they stand, so that repeated ones count too. Of words
// that end before their entries do, those that are there are looked at.
pub fn contradicted(words: &[u32], consulted: usize, facts: &[u8]) -> bool
    ensures { Contradicted (table_of facts.now) words.now consulted result }
{
    let there = consulted.min(2 * words.len().saturating_sub(1));
    (0..there).any(|i| {
        let field = u32::from(packing::unpack_entry(words, 1, i));
        let later = Presence::of(facts, field % policy_model::FACTS);
        facts::entry_presence(field).contradicts(later)
    })
}
