//! A law of the commands on lists, as a function that does nothing.

ghost use Rattle.std.specs.Prelude.{◌≡◌, ◌++◌, ℕ, List, Ok, Option, Some};
ghost use Rattle.rh_combine.specs.declared.form.Form.{Form as Shape};
ghost use Rattle.rh_list_commands.specs.Commands.{Ends, went_well};
ghost use Rattle.rh_shelf.specs.Shelf.{Files};

/// Two runs of a command over the same files and the same input that end well wrote the same bytes,
/// whatever numbers of workers they had.
pub fn commands_agree()
    ensures { (answer : List (List ℕ) → List ℕ) (form : Shape)
        (files : Files) (paths : List (List ℕ)) (input : List ℕ)
        (left rest : Option (List ℕ)) (first first_new second second_new : List ℕ) →
        Ends answer form (Some files) paths (Some input) left (Some first) (Some first_new)
        went_well →
        Ends answer form (Some files) paths (Some input) rest (Some second) (Some second_new)
        went_well →
        (bytes : List ℕ) × (first_new ≡ first ++ bytes) × (second_new ≡ second ++ bytes) }
{}
