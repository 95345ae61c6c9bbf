//! What places and rows are to one another. The functions do nothing: their contracts are proved.

ghost use Rattle.std.specs.Prelude.{◌≡◌, ◌<◌, ◌↔◌, ℕ, List, Some};
ghost use Rattle.lookup_tables.specs.Places.{IsRowAt, IsRowOf, rows_of};
ghost use Rattle.lookup_tables.specs.Rows.{row_at};

/// A row of a table has one place.
pub fn a_row_has_one_place()
    ensures some { (bus : ℕ) (tuple : List ℕ) → IsRowOf bus tuple → (place : ℕ) × IsRowAt bus place tuple }
    ensures one { (bus place other : ℕ) (tuple : List ℕ) → IsRowAt bus place tuple → IsRowAt bus other tuple → place ≡ other }
{}

/// A place below the number of a table's rows has one row, and no other place has one.
pub fn a_place_has_one_row()
    ensures some { (bus place : ℕ) → place < rows_of bus → (tuple : List ℕ) × IsRowAt bus place tuple }
    ensures one { (bus place : ℕ) (tuple other : List ℕ) → IsRowAt bus place tuple → IsRowAt bus place other → tuple ≡ other }
    ensures below { (bus place : ℕ) (tuple : List ℕ) → IsRowAt bus place tuple → place < rows_of bus }
    ensures row { (bus place : ℕ) (tuple : List ℕ) → IsRowAt bus place tuple → IsRowOf bus tuple }
    ensures function { (bus place : ℕ) (tuple : List ℕ) → (row_at bus place ≡ Some tuple ↔ IsRowAt bus place tuple) }
{}
