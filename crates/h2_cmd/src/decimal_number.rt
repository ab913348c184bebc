ghost use Rattle.std.specs.Prelude.{◌≡◌, ◌<◌, ◌^◌, ◌↔◌, ℕ, IsTrue, MatchOption};
ghost use Rattle.std.specs.Fmt.{decimal};
ghost use Rattle.h2_cmd.specs.DecimalNumber.{HasSignOrLeadingZero};

// Whether the text begins as no number does: with a sign that the standard parser takes, or with a zero
// before a further digit.
fn has_sign_or_leading_zero(text: &[u8]) -> bool
    ensures { IsTrue result ↔ HasSignOrLeadingZero text.now }
{
    match text {
        [b'+', ..] => true,
        [b'0', _, ..] => true,
        _ => false,
    }
}

/// The number below 2^64 that the text spells in decimal digits without a sign or a leading zero; None
/// exactly where it spells none.
pub fn parse_decimal(text: &str) -> Option<u64>
    ensures { MatchOption result ((n : ℕ) → n < 2 ^ 64 → text.now ≡ decimal n → ⊥) (λ n. text.now ≡ decimal n) }
{
    if has_sign_or_leading_zero(text.as_bytes()) {
        return None;
    }
    let Ok(number) = text.parse::<u64>() else {
        return None;
    };
    Some(number)
}
