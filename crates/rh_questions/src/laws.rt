//! Laws of what is wanted of lists. They do nothing when they run.

ghost use Rattle.std.specs.Prelude.{◌≡◌, ◌<◌, ◌≤◌, ◌+◌, ◌^◌, ◌&&◌, ℕ, All, List, length};
ghost use Rattle.std.specs.Prelude.{map, sum_by};
ghost use Rattle.std.specs.List.{list_any};
ghost use Rattle.std.specs.List.Sorted.{IsStrictlyIncreasing};
ghost use Rattle.rh_layout.specs.Range.{within};
ghost use Rattle.rh_combine.specs.Combine.{answer, has};
ghost use Rattle.rh_combine.specs.declared.how.How.{How as Made};
ghost use Rattle.rh_combine.specs.declared.how.How.TheVariants.{Union};
ghost use Rattle.rh_questions.specs.Selections.{chosen, in_turn, row_of, selected, wants};
ghost use Rattle.rh_questions.specs.Rankings.{IsRanking};
ghost use Rattle.rh_questions.specs.declared.ranking.Combination.{Combination as Ranked};
ghost use Rattle.rh_questions.specs.Tallies.{AreTallies, tally};
ghost use Rattle.rh_questions.specs.declared.selection.Selection.{Selection as Wanted};

/// Which numbers are wanted of lists: the rising list of those that stand in one of them, and whose
/// row is wanted.
pub fn members()
    ensures listed { (selection : Wanted) (lists : List (List ℕ)) (k : ℕ) →
        has (selected selection lists) k
        ≡ (list_any (λ keys. has keys k) lists && wants selection (row_of lists k)) }
    ensures rising { (selection : Wanted) (lists : List (List ℕ)) →
        IsStrictlyIncreasing (selected selection lists) }
{}

/// The numbers of two ranges, one after the other, that stand in just these lists are as many as
/// those of both.
pub fn tallies_join(from: u64, middle: u64, to: u64)
    requires first { from ≤ middle }
    requires second { middle ≤ to }
    ensures { (lists : List (List ℕ)) (c : ℕ) → tally (map (within from to) lists) c
        ≡ tally (map (within from middle) lists) c + tally (map (within middle to) lists) c }
{
    let _ = (from, middle, to);
}

/// What is made of lists is told by rows too: of a number's row the first list is joined with one
/// after the other.
pub fn made_by_rows()
    ensures { (how : Made) (lists : List (List ℕ)) →
        answer how lists ≡ chosen (in_turn how) lists }
{}

/// The counts of all combinations of lists add up to how many numbers stand in any of them.
pub fn tallies_add_up()
    ensures { (lists : List (List ℕ)) (counts : List ℕ) → AreTallies lists counts →
        sum_by (λ n. n) counts ≡ length (answer Union lists) }
{}

/// Two rankings of the same counts are one: which combination comes first, and which next, is told
/// by the counts alone.
pub fn one_ranking()
    ensures { (counts : List ℕ) (first second : List Ranked) → length counts ≤ 2 ^ 64 →
        All (λ n. n < 2 ^ 64) counts →
        IsRanking counts first → IsRanking counts second → first ≡ second }
{}
