//! Laws of takers of notes. Nothing here does anything; what holds is in the contracts.
ghost use Rattle.std.specs.Prelude.{◌≡◌, ℕ, List, [], true};
ghost use Rattle.ent_reasons.specs.News.{noted, noted_from};
ghost use Rattle.ent_reasons.specs.Noted.{note_of};
ghost use Rattle.ent_sched.specs.Watching.{Heard, HearsAll, exchanged};
ghost use Rattle.ent_trace.specs.Hearing.{Hears};
ghost use Rattle.ent_trace.specs.declared.note_taker.NoteTaker.{NoteTaker};

/// Notes that are whole at the end were whole all along, and each is what all that was told makes of it, in order.
pub fn notes_are_of_what_was_told()
    ensures onward { (told : List Heard) (old new : NoteTaker)
        → HearsAll Hears old told new
        → new.notes.is_whole ≡ true
        → (old.notes.is_whole ≡ true)
        × ((tx : ℕ) → note_of new.notes.notes tx ≡ noted_from (note_of old.notes.notes tx) tx (exchanged told)) }
    ensures from_nothing { (told : List Heard) (old new : NoteTaker)
        → HearsAll Hears old told new
        → old.notes.notes ≡ []
        → new.notes.is_whole ≡ true
        → (tx : ℕ) → note_of new.notes.notes tx ≡ noted tx (exchanged told) }
{}
