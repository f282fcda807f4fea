//! Laws of net changes and of groups. Nothing here does anything; what holds is in the contracts.
ghost use Rattle.std.specs.Prelude.{◌≡◌, ◌↔◌, ◌++◌, ℕ, suc, [], List, Contains, IsFalse, IsTrue, length, take};
ghost use Rattle.ent_lists.specs.Sets as set;
ghost use Rattle.ent_rel.specs.Change.{changed_rows};
ghost use Rattle.ent_rel.specs.Relation.{RowSet};
ghost use Rattle.ent_value.specs.declared.value.Value.{Value as Cell};
ghost use Rattle.ent_semantics.specs.Database.{Database, Name, is_among};
ghost use Rattle.ent_semantics.specs.declared.book.Entry.{Entry};
ghost use Rattle.ent_protocol.specs.State.{State};
ghost use Rattle.ent_feed.specs.declared.group.Group.{Group};
ghost use Rattle.ent_feed.specs.Group.{after_changes, after_groups, changes_between};
ghost use Rattle.ent_feed.specs.NetChange.{net_change, rows_without};
ghost use Rattle.ent_feed.specs.Telling.{AreTold, all_commits, commits_of, settled_database};

/// A net change takes the one set of rows to the other. What it removes stands in the first set and not in the second,
/// what it adds in the second and not in the first; of a set to itself it is nothing.
pub fn net_changes_apply()
    ensures applies { (before after : RowSet) → let change = net_change before after in
        changed_rows before change.removed change.added ≡ after }
    ensures alone { (rows others : RowSet) (row : List Cell) → Contains (rows_without rows others) row
        ↔ (IsTrue (set.contains rows row) × IsFalse (set.contains others row)) }
    ensures nothing { (rows : RowSet) → net_change rows rows ≡ record { removed = []; added = [] } }
{}

/// The net changes of some tables take one database to another that is the same in all other tables.
pub fn changes_apply()
    ensures { (before after : Database) (names : List Name)
        → ((name : Name) → IsFalse (is_among names name) → before name ≡ after name)
        → after_changes (changes_between names before after) before ≡ after }
{}

/// The settled tables, with the changes of the groups that tell of what happened since, one after the other, are the
/// settled tables behind the last of these groups; and so they are behind each of them.
pub fn groups_give_the_settled_tables()
    ensures all { (tickets : List ℕ) (first last : State) (groups : List Group)
        → AreTold tickets first groups last
        → after_groups groups (settled_database first) ≡ settled_database last }
    ensures each { (tickets : List ℕ) (first last : State) (groups : List Group) (count : ℕ)
        → AreTold tickets first groups last
        → (behind : State) × AreTold tickets first (take count groups) behind
        × (after_groups (take count groups) (settled_database first) ≡ settled_database behind) }
{}

/// The commits of the groups that tell of what happened since a state, one group after the other, are what came to the
/// journal since, in order, each once.
pub fn groups_give_the_journal()
    ensures since { (tickets : List ℕ) (first last : State) (groups : List Group)
        → AreTold tickets first groups last
        → (entries : List Entry) × (last.journal ≡ first.journal ++ entries)
        × (all_commits groups ≡ commits_of tickets (suc (length first.journal)) entries) }
    ensures all { (tickets : List ℕ) (first last : State) (groups : List Group)
        → first.journal ≡ []
        → AreTold tickets first groups last
        → all_commits groups ≡ commits_of tickets 1 last.journal }
{}
