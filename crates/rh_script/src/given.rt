//! What the lines so far gave.

ghost use Rattle.std.specs.Prelude.{◌≡◌, [], ◌∷◌, ◌++◌, ◌||◌, ℕ, IfErr, List, OnOk, Option};
ghost use Rattle.std.specs.BTreeSet.{contains_text};
ghost use Rattle.std.specs.Str.{bytes_eq};
ghost use Rattle.rh_script.specs.Instruction.{Numbered};
ghost use Rattle.rh_script.specs.Names.{once};
ghost use Rattle.rh_script.specs.Plan.{next_place, place_after};
ghost use Rattle.rh_script.specs.Steps.{instruction_as};
ghost use Rattle.rh_script.specs.Script.{Answers, GivenBy, HasPlaces};

use crate::fault::ScriptFaultKind;
use crate::script::Command;
use std::alloc::Global;
use std::collections::{BTreeMap, BTreeSet};

/// The names of lists with their numbers, the paths that are read as key files, and those of
/// snapshots.
#[derive(Drop)]
pub(crate) struct Given {
    lists: BTreeMap<String, usize>,
    files: BTreeSet<String>,
    snapshots: BTreeSet<String>,
}

impl Given {
    pub(crate) fn new(alloc: Global) -> Given
        ensures { GivenBy [] result }
    {
        Given {
            lists: BTreeMap::new(alloc),
            files: BTreeSet::new(alloc),
            snapshots: BTreeSet::new(alloc),
        }
    }

    /// Tests that the command may stand here, and keeps what it gives. Answers the number of its
    /// list.
    #[tactic(auto, unfolding(crate::specs::Names::admitted, crate::specs::Plan::number_after))]
    pub(crate) fn admit(
        &mut self,
        alloc: Global,
        command: &Command,
    ) -> Result<Option<usize>, ScriptFaultKind>
        ensures admitted { (before : List Numbered) → GivenBy before self.old →
            Answers (place_after before (instruction_as command.now)) (λ list. list) result }
        ensures kept { (before : List Numbered) (line : ℕ) → GivenBy before self.old →
            OnOk result (GivenBy (before ++ record {
              line = line;
              instruction = instruction_as command.now;
            } ∷ []) self.new) }
    {
        match command {
            Command::Use { name, path } => {
                once(&self.snapshots, path)?;
                let list = give_list(alloc, &mut self.lists, name)?;
                keep(alloc, &mut self.files, path)?;
                Ok(Some(list))
            }
            Command::Save { name } => Ok(Some(give_list(alloc, &mut self.lists, name)?)),
            Command::Act { name, .. } => match self.lists.get(name.as_str()) {
                Some(list) => Ok(Some(*list)),
                None => Err(ScriptFaultKind::Unknown),
            },
            Command::Snapshot { path } => {
                once(&self.files, path)?;
                once(&self.snapshots, path)?;
                keep(alloc, &mut self.snapshots, path)?;
                Ok(None)
            }
            Command::Clear | Command::Dump | Command::Restore { .. } => Ok(None),
        }
    }
}

/// Gives a list the next number, by its name.
fn give_list(
    alloc: Global,
    lists: &mut BTreeMap<String, usize>,
    name: &str,
) -> Result<usize, ScriptFaultKind>
    ensures new { (given : List (List ℕ)) → HasPlaces lists.old given →
        Answers (next_place name.now given) (λ list. list) result }
    ensures kept { (given : List (List ℕ)) → HasPlaces lists.old given →
        OnOk result (HasPlaces lists.new (given ++ name.now ∷ [])) }
{
    if lists.contains_key(name) {
        return Err(ScriptFaultKind::Twice);
    }
    let list = lists.len();
    let name = String::from_str(alloc, name)?;
    lists.insert(name, list)?;
    Ok(list)
}

/// Tests that the text is not there yet.
fn once(texts: &BTreeSet<String>, text: &str) -> Result<(), ScriptFaultKind>
    ensures { result ≡ once (contains_text texts.now text.now) }
{
    if texts.contains(text) {
        return Err(ScriptFaultKind::Twice);
    }
    Ok(())
}

fn keep(alloc: Global, texts: &mut BTreeSet<String>, text: &str) -> Result<(), ScriptFaultKind>
    ensures memory { IfErr result (λ kind. kind ≡ ScriptFaultKind.Memory) }
    ensures kept { OnOk result ((other : List ℕ) → contains_text texts.new other ≡
        (contains_text texts.old other || bytes_eq text.now other)) }
{
    let text = String::from_str(alloc, text)?;
    texts.insert(text)?;
    Ok(())
}
