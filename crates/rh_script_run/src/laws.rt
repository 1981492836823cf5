//! Laws of runs. They do nothing when they run.

ghost use Rattle.std.specs.Prelude.{◌≡◌, List, Result};
ghost use Rattle.rh_script.specs.Instruction.{Numbered};
ghost use Rattle.rh_shelf.specs.Shelf.{Files};
ghost use Rattle.rh_script_run.specs.declared.fault.RunFault.{RunFault};
ghost use Rattle.rh_script_run.specs.declared.report.Report.{Report};
ghost use Rattle.rh_script_run.specs.Agree.{AllReadWhere, AppendFrontOf, AppendFronts, AppendSame};
ghost use Rattle.rh_script_run.specs.Agree.{EndsByItself, IsSameAt, StaysSame, result_of};
ghost use Rattle.rh_script_run.specs.Ends.{Ends};
ghost use Rattle.rh_script_run.specs.Environment.{Environment};
ghost use Rattle.rh_script_run.specs.Meaning.{meaning, start};

/// Two runs of one script over the same files that both end by themselves have one result, leave
/// the same files and append the same text.
pub fn runs_agree()
    ensures { (files : Files) (steps : List Numbered) (old new old' new' : Environment)
        (r r' : Result Report RunFault) →
        Ends files steps old new r → Ends files steps old' new' r' →
        EndsByItself steps old new r → EndsByItself steps old' new' r' →
        (r ≡ r') × (new.files ≡ new'.files) × AppendSame old.text new.text old'.text new'.text }
{}

/// The result of a run that ends by itself is that of the script's meaning.
pub fn ends_as_meant()
    ensures { (files : Files) (steps : List Numbered) (old new : Environment)
        (r : Result Report RunFault) → Ends files steps old new r →
        EndsByItself steps old new r →
        r ≡ result_of steps (meaning (start files) steps) }
{}

/// Whatever ended two runs of one script over the same files, they append fronts of one text; and
/// that of the one is a front of the other's, where the other ended by itself.
pub fn texts_agree()
    ensures fronts { (files : Files) (steps : List Numbered) (old new old' new' : Environment)
        (r r' : Result Report RunFault) →
        Ends files steps old new r → Ends files steps old' new' r' →
        AppendFronts old.text new.text old'.text new'.text }
    ensures whole { (files : Files) (steps : List Numbered) (old new old' new' : Environment)
        (r r' : Result Report RunFault) →
        Ends files steps old new r → Ends files steps old' new' r' →
        EndsByItself steps old new r →
        AppendFrontOf old.text new.text old'.text new'.text }
{}

/// Of the files only those that the script reads matter: where two shelves have the same there, two
/// runs that both end by themselves have one result and append the same text, and what was the same
/// at any path is so still.
pub fn only_what_is_read_matters()
    ensures { (files files' : Files) (steps : List Numbered) (old new old' new' : Environment)
        (r r' : Result Report RunFault) → AllReadWhere (IsSameAt files files') steps →
        Ends files steps old new r → Ends files' steps old' new' r' →
        EndsByItself steps old new r → EndsByItself steps old' new' r' →
        (r ≡ r') × StaysSame files files' new.files new'.files ×
        AppendSame old.text new.text old'.text new'.text }
{}
