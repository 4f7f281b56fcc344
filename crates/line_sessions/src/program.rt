//! What a program answers to a line.
ghost use Rattle.std.specs.Prelude.{ℕ, List, OnOk, OnErr, IfErr};
ghost use Rattle.line_sessions.specs.Answers.{Adds, Begins, Refuses};

/// Why a line has no answer.
#[derive(Clone, Copy, Debug, PartialEq, Eq)]
pub enum Refusal {
    /// The line asks for nothing that the program knows. The text is told behind its number, where
    /// it isn't empty.
    Bad(&'static str),
    /// An allocation failed.
    Memory,
}

/// A program that answers lines, one after another.
///
/// # Examples
///
/// ```
/// let Some(command) = parse(line) else {
///     return Err(Refusal::Bad(""));
/// };
/// answer(answers, self, command).map_err(|_| Refusal::Memory)
/// ```
///
/// `answer` in `crates/trie_tool/src/engine.rt` answers a line that is a command.
pub trait Program: Drop {
    // What a line is answered: the program before it, the line, the program after it, the answer.
    ghost replies: { Self → List ℕ → Self → List ℕ → Type 0 };

    // Whether a line asks for nothing.
    ghost is_bad: { List ℕ → Type 0 };

    // What is left of a program where an allocation fails at a line.
    ghost gives_up: { Self → List ℕ → Self → Type 0 };

    // What is told of a bad line, behind its number: the line, and the text.
    ghost says: { List ℕ → List ℕ → Type 0 };

    /// Answers a line, behind the answers that wait. A bad line leaves the program as it was.
    /// After a failure a part of an answer may stand there, which the session takes away.
    fn answer(&mut self, line: &[u8], answers: &mut Vec<u8>) -> Result<(), Refusal>
        ensures answered { OnOk result
            (Adds replies line.now self.old self.new answers.old.items answers.new.items) }
        ensures refused { IfErr result
            (λ why. Refuses is_bad says gives_up why line.now self.old self.new) }
        ensures kept { OnErr result (Begins answers.old.items answers.new.items) };

    // A bad line has no answer.
    ghost bad_is_unanswered: { (p q : Self) (line answer : List ℕ)
        → is_bad line → ¬ (replies p line q answer) };
}
