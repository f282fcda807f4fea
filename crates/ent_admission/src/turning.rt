//! The epoch turns.
ghost use Rattle.std.specs.Prelude.{◌≡◌, ◌+◌, ◌<◌, ◌^◌, IfErr, IfOk, OnErr, OnOk};
ghost use Rattle.ent_admission.specs.Admission.{IsAtRest};
ghost use Rattle.ent_admission.specs.Acts.{Advances};
ghost use Rattle.ent_book.specs.Tables.{book_seen};
ghost use Rattle.ent_epoch.specs.Epoch.{begun, carried_over};
ghost use Rattle.ent_epoch.specs.declared.turn.NotTurned.TheVariants.{Busy, NoNumber, TooManyRows};
ghost use Rattle.ent_protocol.specs.Reached.{book_of};
ghost use Rattle.ent_epoch.specs.Passed.{IsRenewed, rows_together};
ghost use Rattle.ent_semantics.specs.Book.{IsLegal};
ghost use Rattle.ent_tree.specs.declared.limits.TheConstants.{MOST_OPENING_ROWS};
ghost use Rattle.ent_value.specs.declared.refusal.Refusal.TheVariants.{Fault};

use crate::admission::Admission;
use ent_epoch::{FinishedBook, NotTurned};
use ent_value::{Name, Refusal};

impl Admission {
    /// Ends the epoch, whose book it gives, and begins the next one over its tables, of which the drained ones are
    /// empty. Who waits goes on waiting. At a refusal, and where memory runs out, nothing changes.
    pub fn turn(&mut self, drained: &[Name]) -> Result<FinishedBook, Refusal<NotTurned>>
        ensures book { IfOk result (λ book. book_seen book ≡ book_of self.old.epoch.core) }
        ensures legal { IfOk result (λ book. IsLegal (book_seen book)) }
        ensures at_rest { OnOk result (IsAtRest self.old) }
        ensures begun { OnOk result
            (self.new.epoch ≡ begun (self.old.epoch.number + 1) self.new.epoch.core.opening) }
        ensures renewed { OnOk result (IsRenewed self.old.epoch.core.opening.tables
            (carried_over drained.now self.old.epoch.core) self.new.epoch.core.opening) }
        ensures list { self.new.list ≡ self.old.list }
        ensures coming { self.new.coming ≡ self.old.coming }
        ensures again { self.new.again ≡ self.old.again }
        ensures feed { self.new.feed ≡ self.old.feed }
        ensures news { self.new.news ≡ self.old.news }
        ensures advances { Advances self.old self.new }
        ensures err { OnErr result (self.new ≡ self.old) }
        ensures busy { IfErr result (λ refusal. refusal ≡ Fault Busy → ¬ IsAtRest self.old) }
        ensures too_many { IfErr result (λ refusal. refusal ≡ Fault TooManyRows
            → MOST_OPENING_ROWS < rows_together self.old.epoch.core.opening.tables
            (carried_over drained.now self.old.epoch.core)) }
        ensures no_number { IfErr result (λ refusal. refusal ≡ Fault NoNumber
            → self.old.epoch.number + 1 ≡ 2 ^ 64) }
    {
        if !self.is_at_rest() {
            return Err(Refusal::Fault(NotTurned::Busy));
        }
        let book = self.epoch.turn(self.alloc, drained)?;
        Ok(book)
    }
}
