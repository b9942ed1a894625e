//! What holds of printed walks, of summaries and of generated inputs, as their definitions say it.
ghost use Rattle.std.specs.Prelude.{◌≡◌, ℕ, List, Option};
ghost use Rattle.agg_segment.specs.declared.query.QueryTree.{QueryTree};
ghost use Rattle.agg_pages.specs.input_text.Input.{Input};
ghost use Rattle.agg_pages.specs.generator.Generator.{generated};
ghost use Rattle.agg_pages.specs.Answer.{IsNeverRefused, IsPlainWalkText, IsPrintedWalk};
ghost use Rattle.agg_pages.specs.Answer.{IsSummary, IsValid};

/// A printed walk is the text of the plain walk, and an input has one such text at most. So a
/// reader of the text may skip what makes an input valid: of a valid input, the text of the plain
/// walk is the printed walk.
pub fn a_printed_walk_is_the_plain_walk<B>()
    ensures plain { (tree_for : B → List (List ℕ) → Option QueryTree) (i : Input B) (text : List ℕ)
        → IsPrintedWalk tree_for i text → IsPlainWalkText tree_for i text }
    ensures printed { (tree_for : B → List (List ℕ) → Option QueryTree) (i : Input B)
        (text : List ℕ)
        → IsValid tree_for i → IsPlainWalkText tree_for i text → IsPrintedWalk tree_for i text }
    ensures only { (tree_for : B → List (List ℕ) → Option QueryTree) (i : Input B)
        (text other : List ℕ)
        → IsPlainWalkText tree_for i text → IsPlainWalkText tree_for i other → text ≡ other }
{}

/// The input of a seed is never refused, whatever the builders make.
pub fn generated_inputs_are_never_refused<B>()
    ensures { (tree_for : B → List (List ℕ) → Option QueryTree) (seed : ℕ)
        → IsNeverRefused tree_for (generated seed) }
{}

/// An input has exactly one summary.
pub fn an_input_has_one_summary<B>()
    ensures exists { (tree_for : B → List (List ℕ) → Option QueryTree) (i : Input B)
        → (text : List ℕ) × IsSummary tree_for i text }
    ensures only { (tree_for : B → List (List ℕ) → Option QueryTree) (i : Input B)
        (text other : List ℕ)
        → IsSummary tree_for i text → IsSummary tree_for i other → text ≡ other }
{}

/// A seed has exactly one summary, whatever the builders and the queries that they make: each run
/// that writes a summary of it writes that.
pub fn a_seed_has_one_summary<B, C>()
    ensures { (tree_for : B → List (List ℕ) → Option QueryTree)
        (others_for : C → List (List ℕ) → Option QueryTree) (seed : ℕ) (text other : List ℕ)
        → IsSummary tree_for (generated seed) text
        → IsSummary others_for (generated seed) other
        → text ≡ other }
{}
