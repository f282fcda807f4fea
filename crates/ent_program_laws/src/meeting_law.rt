//! Laws of texts and of what their scripts give. Nothing here does anything; what holds is in the contracts.
ghost use Rattle.std.specs.Prelude.{◌≡◌, ◌↔◌, ℕ, Bool, List, Some, IsTrue, Contains, map};
ghost use Rattle.std.specs.List.{filter};
ghost use Rattle.ent_tree.specs.declared.declaration.Create.{Create};
ghost use Rattle.ent_tree.specs.declared.script.Script.{Script};
ghost use Rattle.ent_semantics.specs.declared.answer.Fact.{Fact};
ghost use Rattle.ent_semantics.specs.declared.book.Book.{Book};
ghost use Rattle.ent_semantics.specs.declared.book.JointAnswer.{JointAnswer};
ghost use Rattle.ent_semantics.specs.declared.book.Member.{Member};
ghost use Rattle.ent_semantics.specs.Book.{IsLegal};
ghost use Rattle.ent_semantics.specs.Database.{Database, Environment};
ghost use Rattle.ent_semantics.specs.Entangled.{Valuation, heads, posts};
ghost use Rattle.ent_semantics.specs.Serial.{ReadView, Turn, numbered, scripts_read_views};
ghost use Rattle.ent_meetings.specs.PartyMeeting.{IsClosed};
ghost use Rattle.ent_meetings.specs.Party.{TextView, party_of, view_demands, view_offers};
ghost use Rattle.ent_meetings.specs.Pattern.{may_meet};
ghost use Rattle.ent_meetings.specs.declared.pattern.Pattern.{Pattern};
ghost use Rattle.ent_program_laws.specs.MeetingAnswered.{IsMetAmong, KeepsTogether};
ghost use Rattle.ent_program_laws.specs.Cover.{Covers, IsCovered};
ghost use Rattle.ent_program_laws.specs.Known.{Agrees, IsKnownThere, demands_at, offers_at};

/// Where what is known of host variables is so, each head of an entangled statement is covered by an offer of its text,
/// under any valuation, and each post by a demand; and each demand covers a post.
pub fn texts_cover_what_is_given()
    ensures heads { (view : TextView) (environment : Environment) (valuation : Valuation) (head : Fact)
        → Agrees view.known environment
        → Contains (heads environment view.entangled valuation) head
        → IsCovered (view_offers view) head }
    ensures posts { (view : TextView) (environment : Environment) (valuation : Valuation) (post : Fact)
        → Agrees view.known environment
        → Contains (posts environment view.entangled valuation) post
        → IsCovered (view_demands view) post }
    ensures demands { (view : TextView) (environment : Environment) (valuation : Valuation) (demand : Pattern)
        → Agrees view.known environment
        → Contains (view_demands view) demand
        → (post : Fact) × Contains (posts environment view.entangled valuation) post × Covers demand post }
{}

/// What is demanded and what is offered may meet, where both cover one row.
pub fn patterns_of_one_row_may_meet()
    ensures { (demand offer : Pattern) (fact : Fact)
        → Covers demand fact
        → Covers offer fact
        → IsTrue (may_meet demand offer) }
{}

/// A script offers and demands what the statements of its places do, and nothing else.
pub fn parties_are_of_statements()
    ensures offers { (script : Script) (offer : Pattern)
        → Contains (party_of script).offers offer ↔ ((place : ℕ) × Contains (offers_at script place) offer) }
    ensures demands { (script : Script) (demand : Pattern)
        → Contains (party_of script).demands demand ↔ ((place : ℕ) × Contains (demands_at script place) demand) }
{}

/// What entangled statements see in a serial run agrees with what the texts of their scripts know there.
pub fn texts_know_what_is_seen()
    ensures { (declared : List Create) (turns : List Turn) (database : Database) (read_view : ReadView)
        → Contains (scripts_read_views declared turns database) read_view
        → (turn : Turn) × Contains turns turn × (turn.tx ≡ read_view.tx) × IsKnownThere turn.script read_view }
{}

/// In a legal book each demand of a statement that was answered may be met, by the text, by a statement of the same
/// joint answer.
pub fn answered_demands_may_be_met()
    ensures { (book : Book Database) (joint : JointAnswer) (member : Member) (script : Script) (demand : Pattern)
        → IsLegal book
        → Contains book.joint_answers joint
        → Contains joint.members member
        → numbered book.scripts member.tx ≡ Some script
        → Contains (demands_at script member.place) demand
        → IsMetAmong book.scripts joint.members demand }
{}

/// The scripts that committed in a legal book are closed; so are those of some transactions alone, where no joint
/// answer is both of them and of others.
pub fn committed_scripts_are_closed()
    ensures { (book : Book Database) (legal : IsLegal book) (are_some : ℕ → Bool)
        → KeepsTogether are_some book.joint_answers
        → IsClosed (map (λ turn. party_of turn.script) (filter (λ turn. are_some turn.tx) legal.turns)) }
{}
