//! Laws of the texts of fields, on which documents rest: each is short and bare, and spells one value.

ghost use Rattle.std.specs.Prelude.{◌≡◌, ℕ, ◌≤◌, ◌<◌, ◌^◌, List, IsTrue, decimal};
ghost use Rattle.ojp_values.specs.Texts.{is_code, is_stop_ref, is_label, is_name, escaped};
ghost use Rattle.ojp_values.specs.Numbers.{duration_text};
ghost use Rattle.ojp_values.specs.Dates.{day_text, moment_text};
ghost use Rattle.ojp_values.specs.declared.moments.TheConstants.{LAST_SECOND};
ghost use Rattle.ojp_values.specs.FieldTexts.{IsFieldText};
ghost use Rattle.ojp_values.specs.Stops.{StopsHaveParts};
ghost use Rattle.ojp_values.specs.Characters.{ControlsAreBytes, NoncharactersAreBytes};

/// The text of a value of each kind is 1 to 512 bytes, and none of them is `<`.
pub fn texts_are_bare()
    ensures code { (text : List ℕ) → IsTrue (is_code text) → IsFieldText text }
    ensures stop_ref { (text : List ℕ) → IsTrue (is_stop_ref text) → IsFieldText text }
    ensures label { (text : List ℕ) → IsTrue (is_label text) → IsFieldText text }
    ensures name { (text : List ℕ) → IsTrue (is_name text) → IsFieldText (escaped text) }
    ensures moment { (n : ℕ) → n ≤ LAST_SECOND → IsFieldText (moment_text n) }
    ensures day { (n : ℕ) → n ≤ 84_005 → IsFieldText (day_text n) }
    ensures duration { (n : ℕ) → n < 2 ^ 32 → IsFieldText (duration_text n) }
    ensures number { (n : ℕ) → n < 2 ^ 32 → IsFieldText (decimal n) }
{}

/// A text spells one value. Codes, stop references and labels are their own texts.
pub fn texts_spell_one_value()
    ensures name { (a b : List ℕ) → escaped a ≡ escaped b → a ≡ b }
    ensures moment { (m n : ℕ) → m ≤ LAST_SECOND → n ≤ LAST_SECOND → moment_text m ≡ moment_text n → m ≡ n }
    ensures day { (m n : ℕ) → m ≤ 84_005 → n ≤ 84_005 → day_text m ≡ day_text n → m ≡ n }
    ensures duration { (m n : ℕ) → m < 2 ^ 32 → n < 2 ^ 32 → duration_text m ≡ duration_text n → m ≡ n }
    ensures number { (m n : ℕ) → m < 2 ^ 32 → n < 2 ^ 32 → decimal m ≡ decimal n → m ≡ n }
{}

/// A reference to a stop is a code or `x`, a colon and a label, and each such text is one.
pub fn stops_have_parts()
    ensures { StopsHaveParts }
{}

/// The tests on the bytes of a name say what they say of its characters, which are Unicode's.
pub fn names_have_characters()
    ensures controls { ControlsAreBytes }
    ensures noncharacters { NoncharactersAreBytes }
{}
