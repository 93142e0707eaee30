//! Proves the laws of lines. The contract of each function is the law.

ghost use Rattle.std.specs.Prelude.{◌≡◌, ◌≢◌, ◌∷◌, ◌++◌, [], All, ℕ, List};
ghost use Rattle.script_lines.specs.Lines.{lines_of, without_cr};

/// Proves that an LF ends a line, that a CR right before it is dropped, and that the last line may
/// have none.
pub fn an_lf_ends_a_line()
    ensures ended { (line rest : List ℕ) → All (λ b. b ≢ 10) line
        → lines_of (line ++ 10 ∷ rest) ≡ without_cr line ∷ lines_of rest }
    ensures last { (line : List ℕ) → All (λ b. b ≢ 10) line → line ≢ []
        → lines_of line ≡ line ∷ [] }
    ensures none { lines_of [] ≡ [] }
{}
