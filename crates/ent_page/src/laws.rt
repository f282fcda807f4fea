//! Laws of keys.
ghost use Rattle.std.specs.Prelude.{◌≡◌, ◌↔◌, IsTrue, List, length, take};
ghost use Rattle.ent_value.specs.Value.{value_cmp, row_cmp, kind_of, kinds_of};
ghost use Rattle.ent_value.specs.declared.value.Value.{Value};
ghost use Rattle.ent_page.specs.Front.{begins_with};
ghost use Rattle.ent_page.specs.Key.{value_key, key_of, key_cmp, IsStorable, AreStorable};
ghost use Rattle.ent_page.specs.Read.{row_from};

/// Keys of rows of the same kinds are in the order of the rows, and a row is read back from its key.
pub fn keys_are_in_order()
    ensures order { (r s : List Value) → kinds_of r ≡ kinds_of s → AreStorable r → AreStorable s
        → key_cmp (key_of r) (key_of s) ≡ row_cmp r s }
    ensures back { (r : List Value) → AreStorable r → row_from (kinds_of r) (key_of r) ≡ r }
{}

/// Keys of values of one kind are in the order of the values.
pub fn values_are_in_order()
    ensures { (v w : Value) → kind_of v ≡ kind_of w → IsStorable v → IsStorable w
        → key_cmp (value_key v) (value_key w) ≡ value_cmp v w }
{}

/// A row's key begins with the key of some values exactly where these are the row's first values.
pub fn first_values_are_fronts()
    ensures { (values row : List Value) → kinds_of values ≡ take (length values) (kinds_of row)
        → AreStorable values → AreStorable row
        → IsTrue (begins_with (key_of values) (key_of row)) ↔ (take (length values) row ≡ values) }
{}
