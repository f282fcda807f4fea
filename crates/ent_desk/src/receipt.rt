//! What the journal has for a transaction.
ghost use Rattle.std.specs.Prelude.{◌≡◌, IfOk};
ghost use Rattle.ent_desk.specs.Receipts.{IsInJournal};

use crate::desk::Desk;
use crate::ticket::Receipt;
use ent_core::{answers_copy, resolved_journals_fit_the_fates};
use ent_form::FormFault;
use ent_group::Tx;
use ent_protocol_laws::transactions_stand_once;
use ent_semantics::Fate;
use ent_stamp::Naming;
use std::alloc::{AllocError, Global};

impl<L: Naming> Desk<L> {
    /// The receipt of the entry that the journal has for a transaction, whoever submitted it and whoever's step made
    /// the commit: its number, its runs, and copies of its answers. None where the transaction hasn't committed.
    pub fn receipt_of(&self, alloc: Global, tx: Tx) -> Result<Option<Receipt>, AllocError>
        ensures { IfOk result (IsInJournal self.now.core tx) }
    {
        resolved_journals_fit_the_fates();
        transactions_stand_once::<FormFault>();
        self.core.is_reached();
        let Some(fate) = self.fate(tx) else {
            return Ok(None);
        };
        let Fate::Committed { number, runs } = fate else {
            return Ok(None);
        };
        match self.core.entry(number as usize) {
            Some(entry) => {
                let answers = answers_copy(alloc, entry.answers.as_slice())?;
                Ok(Some(Receipt {
                    number,
                    tx,
                    runs,
                    answers,
                }))
            }
            None => unreachable!(),
        }
    }
}
