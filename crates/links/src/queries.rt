// Reading a table that is built: the sightings of an entry.

ghost use Rattle.std.specs.Prelude.{◌≡◌, ◌+◌, length, drop};
ghost use Rattle.std.specs.Iterator.{YieldsFirst, item_count};
ghost use Rattle.engine.specs.Statements.{ith};
ghost use Rattle.links.specs.Tables.{ReadyIn, seen_at};

use crate::table::Table;

// The sightings of an entry, the longest first: those of the entries along its links that are whole cues
// (textbook: the output function).
#[derive(Drop)]
pub(crate) struct Sightings<'a> {
    pub(crate) table: &'a Table,
    pub(crate) at: u16,
    ghost ready: { ∥ ReadyIn table.now at ∥₁ },
}

impl<'a> Iterator for Sightings<'a> {
    type Item = (u16, u16);

    ghost next_gives = { YieldsFirst (λ s. seen_at s.table.now s.at) };

    ghost remaining = { item_count (λ s. seen_at s.table.now s.at) };

    fn next(&mut self) -> Option<(u16, u16)> {
        self.nth(0)
    }
}

// The type's own `count` and `nth` are called in place of those of `Iterator`, which may not be overridden. Those go
// by `next`, which stops at each entry that is a whole cue: a branch that a processor cannot foresee where such
// entries and others are mixed. Here an entry adds or takes 1 or 0, and the walk stops once, at its end.
impl<'a> Sightings<'a> {
    // How many sightings are left.
    pub(crate) fn count(self) -> usize
        ensures { result ≡ length (seen_at self.entry.table.now self.entry.at) }
    {
        let mut count = 0;
        let mut link = self.at;
        while link != 0 {
            let node = self.table.node(link);
            count += usize::from(node.whole.is_some());
            link = node.link;
        }
        count
    }

    // Passes over n sightings and gives the next.
    pub(crate) fn nth(&mut self, n: usize) -> Option<(u16, u16)>
        ensures value { result ≡ ith (n + 1) (seen_at self.old.table.now self.old.at) }
        ensures rest { seen_at self.new.table.now self.new.at ≡ drop (n + 1) (seen_at self.old.table.now self.old.at) }
    {
        let mut left = n;
        let mut at = self.at;
        while at != 0 {
            let node = self.table.node(at);
            let here = usize::from(node.whole.is_some());
            at = node.link;
            if left < here {
                self.at = at;
                return Some((node.whole?, node.len));
            }
            left -= here;
        }
        self.at = 0;
        None
    }
}
