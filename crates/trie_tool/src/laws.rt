//! Laws of the definitions, and worked lines.
ghost use Rattle.std.specs.Prelude.{◌≡◌, ℕ, List, [], ◌∷◌, codes, map as each};
ghost use Rattle.std.specs.FinMap as map;
ghost use Rattle.line_sessions.specs.Answers.{AreAnswers};
ghost use Rattle.line_sessions.specs.Lines.{all_lines, cut};
ghost use Rattle.line_sessions.specs.Sessions.{IsBadAt};
ghost use Rattle.trie_tool.specs.Request.{request_of, IsBad, Numbers, Replies};
ghost use Rattle.trie_tool.specs.Worked.{worked_lines};

/// What some lines ask for, and where a text is cut into lines.
pub fn worked_lines()
    ensures lines { each (λ row. request_of row.0) worked_lines ≡ each (λ row. row.1) worked_lines }
    ensures cut_lines { (cut (codes "ab\n\nc")).lines ≡ codes "ab" ∷ [] ∷ [] }
    ensures cut_rest { (cut (codes "ab\n\nc")).rest ≡ codes "c" }
{}

/// Lines have one answer.
pub fn answers_are_one()
    ensures { (lines : List (List ℕ)) (m n left : Numbers) (o p : List ℕ)
        → AreAnswers Replies lines m n o → AreAnswers Replies lines m left p
        → (o ≡ p) × (n ≡ left) }
{}

/// Worked runs: a value is replaced, a bad line ends the run after a skipped line, nothing is read.
pub fn worked_runs()
    ensures value_is_replaced { (left : Numbers) × AreAnswers Replies
        (all_lines (codes "insert haskell 18\ninsert haskell 36\nget haskell\nlen\n")) map.empty
        left (codes "new\nold 18\n36\n1\n") }
    ensures bad_line_ends_it { (left : Numbers) × IsBadAt Replies IsBad
        (all_lines (codes "insert a b 007\n\nget a b\ninsert x\nlen")) 4 map.empty left
        (codes "new\n7\n") }
    ensures empty_input { AreAnswers Replies (all_lines []) map.empty map.empty [] }
{}
