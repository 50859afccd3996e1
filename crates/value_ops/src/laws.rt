//! Laws of the operators: each is the contract of a function that does nothing.

ghost use Rattle.std.specs.Prelude.{◌≡◌, ◌<◌, ◌+ℤ◌, ◌*ℤ◌, ◌≤ℤ◌, ℕ, ℤ, pos, List, [], ◌∷◌, Ok, Some, length, slice_get, FitsSigned, unsigned_abs};
ghost use Rattle.std.specs.Int.{w64};
ghost use Rattle.value_ops.specs.Numbers.{number_in};
ghost use Rattle.value_ops.specs.Operators.{operator_at, takes_of, gives_of, apply_row};
ghost use Rattle.value_ops.specs.Rows.{wave_rows, wave_rows_2, three};
ghost use Rattle.value_ops.specs.declared.rows.TheConstants.{DIV, REM, STR};
ghost use Rattle.wave_base.specs.declared.operators.TheConstants.{OPERATORS};
ghost use Rattle.wave_base.specs.declared.value.Value.{Value};
ghost use Rattle.wave_base.specs.declared.value.Value.TheVariants.{Int, Str};
ghost use Rattle.wave_base.specs.Operators.{first_names, name_of_operator};
ghost use Rattle.wave_base.specs.Values.{kind_of};

/// A row of each version's table has its operator's name, and says whether it is a builtin, and what it takes and gives.
pub fn rows_of_operators()
    ensures first { (row : ℕ) → row < length first_names → slice_get wave_rows row ≡ Some (record { name = name_of_operator row; builtin = (operator_at row).builtin; takes = three (takes_of row); gives = gives_of row }) }
    ensures second { (row : ℕ) → row < OPERATORS → slice_get wave_rows_2 row ≡ Some (record { name = name_of_operator row; builtin = (operator_at row).builtin; takes = three (takes_of row); gives = gives_of row }) }
{}

/// What a row gives is of the kind that the row gives.
pub fn rows_give_their_kind()
    ensures { (row : ℕ) (values : List Value) (value : Value) → apply_row row values ≡ Ok value → kind_of value ≡ gives_of row }
{}

/// Quotient and remainder make up the dividend, and the remainder has the dividend's sign and is nearer to 0 than the
/// divisor.
pub fn quotient_and_remainder()
    ensures whole { (a b q r : ℤ) → apply_row DIV (Int a ∷ Int b ∷ []) ≡ Ok (Int q) → apply_row REM (Int a ∷ Int b ∷ []) ≡ Ok (Int r) → ((q *ℤ b) +ℤ r) ≡ a }
    ensures sign { (a b r : ℤ) → apply_row REM (Int a ∷ Int b ∷ []) ≡ Ok (Int r) → (pos 0 ≤ℤ a → pos 0 ≤ℤ r) × (a ≤ℤ pos 0 → r ≤ℤ pos 0) }
    ensures small { (a b r : ℤ) → apply_row REM (Int a ∷ Int b ∷ []) ≡ Ok (Int r) → unsigned_abs r < unsigned_abs b }
{}

/// The text of an int reads back as that int.
pub fn str_reads_back()
    ensures { (n : ℤ) (text : List ℕ) → FitsSigned w64 n → apply_row STR (Int n ∷ []) ≡ Ok (Str text) → number_in text ≡ n }
{}
