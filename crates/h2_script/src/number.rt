ghost use Rattle.std.specs.Prelude.{◌↔◌, ◌≤◌, ◌<◌, ◌^◌, ℕ, IsTrue, All, MatchOption};
ghost use Rattle.h2_script.specs.Numbers.{IsDigit, IsNumeral, IsNumber, IsNoNumber, IsNumberAs, IsNoByte, IsAmount};

/// A number of a script.
#[derive(Clone, Copy, Debug, PartialEq, Eq)]
pub enum Number {
    /// A number below 2^64.
    Small(u64),
    /// A greater number.
    Large,
}

/// The most bytes that one command reads or writes.
pub const DATA_BYTES: usize = 1_048_576;

/// A number of bytes to read or to write.
#[derive(Clone, Copy, Debug, PartialEq, Eq)]
pub enum Amount {
    /// At most 1,048,576 bytes.
    Few(u32),
    /// More bytes.
    Many,
}

fn are_digits(word: &[u8]) -> bool
    ensures { IsTrue result ↔ All IsDigit word.now }
{
    for byte in word {
        if !byte.is_ascii_digit() {
            return false;
        }
    }
    true
}

fn is_numeral(word: &[u8]) -> bool
    ensures { IsTrue result ↔ IsNumeral word.now }
{
    match word {
        [] => false,
        [b'0', _, ..] => false,
        _ => are_digits(word),
    }
}

/// The number that the word is; None exactly where it is none.
pub fn parse_number(word: &str) -> Option<Number>
    ensures { MatchOption result (IsNoNumber word.now) (IsNumberAs word.now) }
{
    if !is_numeral(word.as_bytes()) {
        return None;
    }
    match word.parse::<u64>() {
        Ok(number) => Some(Number::Small(number)),
        Err(_) => Some(Number::Large),
    }
}

/// The number of at most 255 that the word is; None exactly where it is none.
pub fn read_byte(word: &str) -> Option<u8>
    ensures { MatchOption result (IsNoByte word.now) (IsNumber word.now) }
{
    let Some(Number::Small(byte)) = parse_number(word) else {
        return None;
    };
    if byte > 255 {
        return None;
    }
    Some(byte as u8)
}

/// The number of bytes that the word is; None exactly where it is no number.
pub fn read_amount(word: &str) -> Option<Amount>
    ensures { MatchOption result (IsNoNumber word.now) (IsAmount word.now) }
{
    let Some(number) = parse_number(word) else {
        return None;
    };
    let Number::Small(count) = number else {
        return Some(Amount::Many);
    };
    if count > DATA_BYTES as u64 {
        return Some(Amount::Many);
    }
    Some(Amount::Few(count as u32))
}
