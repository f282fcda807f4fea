//! Two friends on one flight. Nothing here has a body; what holds is in the contracts.
ghost use Rattle.std.specs.Prelude.{◌≡◌, ◌∷◌, [], None};
ghost use Rattle.ent_semantics.specs.Book.{IsLegal};
ghost use Rattle.ent_semantics.specs.Database.{opening_database};
ghost use Rattle.ent_semantics.specs.Serial.{script_run};
ghost use Rattle.ent_examples.specs.Partners.{Mickey, Minnie, flight_122};
ghost use Rattle.ent_examples.specs.Friends.{alone, flies_with, friends_opening};
ghost use Rattle.ent_examples.specs.Friends.{good_book, answered_apart, answered_elsewhere, left_out, answered_twice};
ghost use Rattle.ent_examples.specs.Friends.{widowed};

/// The book in which two friends are answered together with one flight is legal.
pub fn friends_may_fly_together()
    ensures { IsLegal good_book }
{}

/// No book is legal in which a post is met by another joint answer, in which a grounding isn't one over the database
/// that is seen, in which an entangled statement of a committed transaction stands in no joint answer or in two, or in
/// which a transaction commits without its partner.
pub fn wrong_books_are_refused()
    ensures apart { IsLegal answered_apart → ⊥ }
    ensures elsewhere { IsLegal answered_elsewhere → ⊥ }
    ensures left { IsLegal left_out → ⊥ }
    ensures twice { IsLegal answered_twice → ⊥ }
    ensures widow { IsLegal widowed → ⊥ }
{}

/// A script of one entangled statement takes one answer of the oracle, no fewer and no more.
pub fn oracle_answers_are_counted()
    ensures none { script_run friends_opening.tables (alone (flies_with Mickey Minnie)) []
        (opening_database friends_opening)
        ≡ None }
    ensures too_many { script_run friends_opening.tables (alone (flies_with Mickey Minnie))
        ((flight_122 ∷ []) ∷ (flight_122 ∷ []) ∷ [])
        (opening_database friends_opening)
        ≡ None }
{}
