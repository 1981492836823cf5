//! The law of the number of workers, as a function that does nothing.

ghost use Rattle.std.specs.Prelude.{◌≡◌, ℕ, List, ◌++◌, Ok, Some};
ghost use Rattle.rh_combine_workers.specs.Written.{IsWritten};
ghost use Rattle.rh_combine.specs.declared.form.Form.{Form as Shape};

/// Two runs over the same lists that end well wrote the same text and counted as many numbers,
/// whatever numbers of workers they had, however the lists were cut into pieces, and whatever was
/// written before.
pub fn workers_agree()
    ensures { (answer : List (List ℕ) → List ℕ) (form : Shape) (lists : List (List ℕ))
        (first first_new second second_new : List ℕ) (m n : ℕ) →
        IsWritten answer form lists (Some first) (Some first_new) (Ok m) →
        IsWritten answer form lists (Some second) (Some second_new) (Ok n) →
        (text : List ℕ) × (first_new ≡ first ++ text) × (second_new ≡ second ++ text)
        × (m ≡ n) }
{}
