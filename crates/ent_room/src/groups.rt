//! The feed: groups that tell what committed, and who ended otherwise.
ghost use Rattle.std.specs.Prelude.{◌≡◌};
ghost use Rattle.ent_admission.specs.Acts.{Asks};
ghost use Rattle.ent_feed.specs.Feed.{behind, from as from_number};
ghost use Rattle.ent_feed.specs.Group.{AreNumbered};

use crate::room::Room;
use ent_feed::Group;

impl Room {
    /// The groups from a number on that are kept, in order of their numbers. Each tells of transactions that committed
    /// together, and of all that they changed, or of tickets that ended otherwise.
    pub fn groups(&self, from: u64) -> &[Group]
        ensures groups { result.now ≡ from_number from self.now.admission.feed.groups }
        ensures numbered { AreNumbered self.now.admission.feed.first self.now.admission.feed.groups
            self.now.admission.feed.next }
    {
        self.admission.feed().from(from)
    }

    /// The number of the next group.
    pub fn next_group(&self) -> u64
        ensures { result ≡ self.now.admission.feed.next }
    {
        self.admission.feed().next()
    }

    /// Keeps the groups up to this number no longer: they stand elsewhere. Nothing else changes.
    pub fn settled_through(&mut self, number: u64)
        ensures groups { self.new.admission.feed.groups ≡ behind number self.old.admission.feed.groups }
        ensures asks { Asks self.old.admission self.new.admission }
        ensures list { self.new.admission.list ≡ self.old.admission.list }
        ensures epoch { self.new.admission.epoch ≡ self.old.admission.epoch }
        ensures last { self.new.last ≡ self.old.last }
    {
        self.admission.settled_through(number);
    }
}
