ghost use Rattle.std.specs.Prelude.{MatchOption};
ghost use Rattle.h2_script.specs.Cuts.{IsCut, HasNoColon};

/// The parts of the word before its first colon and after it; None exactly where it has no colon.
pub fn cut_at_colon(word: &str) -> Option<(&str, &str)>
    ensures { MatchOption result (HasNoColon word.now) (λ parts. IsCut word.now parts.0.now parts.1.now) }
{
    word.split_once(':')
}
