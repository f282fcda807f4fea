//! What the log tells of the writes that were noted in it.
ghost use Rattle.ent_undo.specs.Writes.{RollsBackEach, RollsBackNewestFirst, RollsBackToFirstWrite};
ghost use Rattle.ent_undo.specs.Writes.{KeepsOtherTables, UndoesWrites};
ghost use Rattle.ent_undo.specs.Writes.{TellsOnceNoted, TellsOnceForgotten, TellsOnceRolledBack};

/// What a rollback gives, in terms of the writes of a history, where each write of the transactions was noted with
/// the table as it stood then. A table that one of them wrote stands as it did before the first of their writes of it,
/// and every other one as it is; where nobody else wrote their tables since, all tables are as though they had
/// written nothing. The log goes on telling once a write is noted, once transactions are rolled back, also of
/// those, which may write again, and of other transactions once some are forgotten.
pub fn log_tells_of_writes()
    ensures each_table { RollsBackEach }
    ensures first_write { RollsBackToFirstWrite }
    ensures other_tables { KeepsOtherTables }
    ensures undone { UndoesWrites }
    ensures noted { TellsOnceNoted }
    ensures forgotten { TellsOnceForgotten }
    ensures rolled_back { TellsOnceRolledBack }
{}

/// What a rollback gives is what comes of putting the noted tables of the transactions back one after the other, the
/// newest first.
pub fn rollback_goes_newest_first()
    ensures { RollsBackNewestFirst }
{}
