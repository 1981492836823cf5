//! The laws of lists that are split into parts. They do nothing when they run.

ghost use Rattle.std.specs.Prelude.{◌≡◌, ℕ, Bool, List, Ok, filter, map};
ghost use Rattle.std.specs.FinSet as set;
ghost use Rattle.rh_script.specs.Instruction.{Instruction, Numbered};
ghost use Rattle.rh_report.specs.Account.{Account};
ghost use Rattle.rh_shelf.specs.Shelf.{Files};
ghost use Rattle.rh_script_run.specs.declared.report.Report.{Report};
ghost use Rattle.rh_script_run.specs.Ends.{Ends};
ghost use Rattle.rh_script_run.specs.Environment.{Environment};
ghost use Rattle.rh_script_run.specs.Files.{HasFiles};
ghost use Rattle.rh_script_run.specs.Meaning.{ScriptState, meaning, start};
ghost use Rattle.rh_combine.specs.Combine.{answer};
ghost use Rattle.rh_combine.specs.declared.how.How.{How};
ghost use Rattle.rh_part_laws.specs.Commands.{PartState, after_all, cut};
ghost use Rattle.rh_part_laws.specs.Scripts.{Has, commands_of};

/// What commands make of the part of all keys and lists is the part of what they make of all.
pub fn parts_agree()
    ensures { (passes : ℕ → Bool) (s : PartState) (commands : List Instruction) →
        cut passes (after_all s commands) ≡ after_all (cut passes s) commands }
{}

/// A script of which no command is refused makes what its commands make. So a run over the part of
/// each list that is carried out to its end holds, and leaves in files, the part of what the
/// commands make of the whole lists, even where no table would be large enough for these.
pub fn scripts_agree()
    ensures meant { (s : PartState) (w made : ScriptState) (steps : List Numbered)
        (accounts : List Account) → Has w s → meaning w steps ≡ Ok (made, accounts) →
        Has made (after_all s (commands_of steps)) }
    ensures part { (passes : ℕ → Bool) (s : PartState) (files : Files) (steps : List Numbered)
        (old new : Environment) (report : Report) → Has (start files) (cut passes s) →
        Ends files steps old new (Ok report) →
        (made : ScriptState) × Has made (cut passes (after_all s (commands_of steps)))
        × HasFiles made.files new.files × (report.held ≡ set.len made.held) }
{}

/// What comes of the parts of lists is the part of what comes of the lists.
pub fn answers_agree()
    ensures { (passes : ℕ → Bool) (how : How) (lists : List (List ℕ)) →
        answer how (map (filter passes) lists) ≡ filter passes (answer how lists) }
{}
