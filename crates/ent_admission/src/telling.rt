//! What came of a batch is told.
ghost use Rattle.std.specs.Prelude.{◌≡◌, ◌<◌, IfErr, OnErr, OnOk, length};
ghost use Rattle.ent_admission.specs.Acts.{Asks};
ghost use Rattle.ent_admission.specs.Admission.{IsAllTold, LacksNumbers};
ghost use Rattle.ent_admission.specs.Moves.{Goes, TellsCommits, TellsEndings};
ghost use Rattle.ent_feed.specs.Feed.{behind};
ghost use Rattle.ent_value.specs.declared.refusal.Refusal.TheVariants.{Fault};

use crate::admission::Admission;
use ent_feed::{Feed, Group, NoNumber};
use ent_value::{Refusal, Sequence};

impl Admission {
    /// Tells what committed since the last telling, group by group. At a refusal nothing changes.
    fn tell_commits(&mut self) -> Result<(), Refusal<NoNumber>>
        ensures tells { OnOk result (TellsCommits self.old self.new) }
        ensures err { OnErr result (self.new ≡ self.old) }
        ensures no_number { IfErr result (λ refusal. refusal ≡ Fault (record {}) → LacksNumbers self.old) }
    {
        self.epoch.publish(self.alloc, &mut self.feed)?;
        Ok(())
    }

    /// Tells who ended otherwise, in one group. At a refusal nothing changes.
    fn tell_endings(&mut self) -> Result<(), Refusal<NoNumber>>
        requires some { 0 < length self.old.news }
        ensures tells { OnOk result (TellsEndings self.old self.new) }
        ensures err { OnErr result (self.new ≡ self.old) }
        ensures no_number { IfErr result (λ refusal. refusal ≡ Fault (record {}) → LacksNumbers self.old) }
    {
        let ended = Vec::from_slice(self.alloc, self.news.as_slice())?;
        let number = self.feed.next();
        self.feed.push(Group {
            number,
            epoch: self.epoch.number(),
            commits: Sequence::new(self.alloc),
            changes: Sequence::new(self.alloc),
            ended: Sequence::from_vec(ended),
        })?;
        self.news.clear();
        Ok(())
    }

    /// Tells what committed since the last telling, and who ended otherwise. Where memory runs out, or the feed has no
    /// number left, what was told stands.
    pub(crate) fn tell(&mut self) -> Result<(), Refusal<NoNumber>>
        ensures goes { Goes self.old self.new }
        ensures told { OnOk result (IsAllTold self.new) }
        ensures list { self.new.list ≡ self.old.list }
        ensures coming { self.new.coming ≡ self.old.coming }
        ensures core { self.new.epoch.core ≡ self.old.epoch.core }
        ensures no_number { IfErr result (λ refusal. refusal ≡ Fault (record {}) → LacksNumbers self.new) }
    {
        self.tell_commits()?;
        if self.news.is_empty() {
            return Ok(());
        }
        self.tell_endings()?;
        Ok(())
    }

    /// The groups that tell what committed, and who ended otherwise, as far as they are kept.
    pub fn feed(&self) -> &Feed
        ensures { result.now ≡ self.now.feed }
    {
        &self.feed
    }

    /// Keeps the groups up to this number no longer: they stand elsewhere. Nothing else changes.
    pub fn settled_through(&mut self, number: u64)
        ensures groups { self.new.feed.groups ≡ behind number self.old.feed.groups }
        ensures asks { Asks self.old self.new }
        ensures list { self.new.list ≡ self.old.list }
        ensures epoch { self.new.epoch ≡ self.old.epoch }
    {
        // A law: the groups that are kept are counted on.
        let _kept = self.feed.from(number);
        self.feed.settled_through(number);
    }
}
