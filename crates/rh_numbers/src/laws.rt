//! The laws of texts of numbers, as functions that do nothing.

ghost use Rattle.std.specs.Prelude.{◌≡◌, ◌≤◌, ◌<◌, ◌+◌, ◌^◌, ◌++◌, ℕ, List, [], ◌∷◌, All, Err, None, Ok, Some, length};
ghost use Rattle.rh_layout.specs.Key.{IsKey};
ghost use Rattle.rh_layout.specs.declared.limits.TheConstants.{MAX_KEY, MAX_KEYS};
ghost use Rattle.rh_numbers.specs.declared.fault.TextFault.TheVariants.{NotAKey, OutOfRange, TooMany};
ghost use Rattle.rh_numbers.specs.declared.limits.TheConstants.{MAX_BYTES, MAX_READS, PART_BYTES};
ghost use Rattle.rh_numbers.specs.Chunks.{feeds, then_said};
ghost use Rattle.rh_numbers.specs.Grammar.{ComesTo, IsKeyText, IsText, Says, without_mark};
ghost use Rattle.rh_numbers.specs.Reading.{lines_said, text_keys, text_said};
ghost use Rattle.rh_numbers.specs.Writing.{text_of};

/// A text has one meaning: what the grammar calls a text of these keys is read to them, with no
/// fault, and what is read so is one. So is the text that is written of them.
pub fn one_meaning(text: &[u8], keys: &[u64])
    ensures given { IsKeyText text.now keys.now → text_keys text.now ≡ Ok keys.now }
    ensures read { text_keys text.now ≡ Ok keys.now → IsKeyText text.now keys.now }
    ensures written { length keys.now ≤ MAX_KEYS → All IsKey keys.now →
        IsKeyText (text_of keys.now) keys.now }
{}

/// The first faulty line gives the fault, with its number: one that the grammar does not know is no
/// number; a number above the greatest key is out of range; and after a million keys one more is
/// too many.
pub fn first_fault(text: &[u8])
    ensures not_a_key { (keys : List ℕ) (number : ℕ) (line : List ℕ) →
        ComesTo text.now keys number line → length keys ≤ MAX_KEYS →
        ((numbers : List ℕ) → Says line numbers → ⊥) →
        text_keys text.now ≡ Err (NotAKey number) }
    ensures out_of_range { (keys : List ℕ) (number : ℕ) (line : List ℕ) (n : ℕ) →
        ComesTo text.now keys number line → length keys ≤ MAX_KEYS →
        Says line (n ∷ []) → MAX_KEY < n →
        text_keys text.now ≡ Err (OutOfRange number) }
    ensures too_many { (keys : List ℕ) (number : ℕ) (line : List ℕ) (n : ℕ) →
        ComesTo text.now keys number line → Says line (n ∷ []) → n ≤ MAX_KEY →
        length keys ≡ MAX_KEYS → text_keys text.now ≡ Err TooMany }
{}

/// A text of any length has one meaning too, and its first faulty line gives its fault. A byte
/// order mark at its head says nothing.
pub fn any_length(text: &[u8], keys: &[u64])
    ensures given { IsText text.now keys.now → text_said text.now ≡ (keys.now, None) }
    ensures read { text_said text.now ≡ (keys.now, None) → IsText text.now keys.now }
    ensures mark { text_said text.now ≡ lines_said (without_mark text.now) }
    ensures not_a_key { (number : ℕ) (line : List ℕ) →
        ComesTo text.now keys.now number line →
        ((numbers : List ℕ) → Says line numbers → ⊥) →
        text_said text.now ≡ (keys.now, Some (NotAKey number)) }
    ensures out_of_range { (number : ℕ) (line : List ℕ) (n : ℕ) →
        ComesTo text.now keys.now number line → Says line (n ∷ []) → MAX_KEY < n →
        text_said text.now ≡ (keys.now, Some (OutOfRange number)) }
{}

/// The numbers of a text whose front is whole lines are those of its front, and then those of the
/// rest. Its first bad line is that of its front, or else that of the rest, counted on. Only the
/// front may begin with a byte order mark.
pub fn text_in_chunks(front: &[u8], rest: &[u8])
    ensures { text_said (front.now ++ 10 ∷ rest.now)
        ≡ then_said (feeds front.now + 1) (text_said (front.now ++ 10 ∷ [])) (lines_said rest.now) }
{}

/// The numbers of texts: how many bytes are too many, and how many are read at once, how often.
pub fn fixed_numbers()
    ensures longest { MAX_BYTES ≡ 2 ^ 63 }
    ensures parts { (PART_BYTES ≡ 8192) × (MAX_READS ≡ 2 ^ 50) }
{}
