//! Laws of the definitions.
ghost use Rattle.std.specs.Prelude.{◌≡◌, ℕ, List, [], ◌∷◌, ◌++◌, flat_map};
ghost use Rattle.std.specs.List.{All};
ghost use Rattle.line_sessions.specs.Answers.{AreAnswers, IsBadLine};
ghost use Rattle.line_sessions.specs.Lines.{cut};

use crate::program::Program;

/// Cutting loses no byte: the lines, each with its line feed, and the bytes after them are the
/// text.
pub fn lines_join()
    ensures { (bytes : List ℕ)
        → flat_map (λ line. line ++ 10 ∷ []) (cut bytes).lines ++ (cut bytes).rest ≡ bytes }
{}

/// Where all lines have answers, none of them is bad.
pub fn answered_lines_are_good<P: Program>()
    ensures { (lines : List (List ℕ)) (p q : P) (o : List ℕ) → AreAnswers P.replies lines p q o
        → All (λ line. ¬ (IsBadLine P.is_bad line)) lines }
{}
