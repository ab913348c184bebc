ghost use Rattle.std.specs.Prelude.{◌≡◌, ◌↔◌, ℕ, List, IsTrue, map, MatchOption};
ghost use Rattle.std.specs.Fmt.{decimal};
ghost use Rattle.std.specs.String.{string_bytes};
ghost use Rattle.h2_geom.specs.Geometry.{IsZoneCount};
ghost use Rattle.h2_cmd.specs.CommandLine.{Asks, AsksNothing};
ghost use Rattle.h2_cmd.specs.declared.command_line.Request.{Request};

use crate::decimal_number::parse_decimal;
use h2_geom::{ZONES_LEAST, ZONES_MOST};

/// What a command line asks for.
#[derive(Clone, Copy, Debug, PartialEq, Eq)]
pub enum Request {
    /// `format IMAGE ZONES`: make a volume of so many zones in an image that has none.
    Format { zones: u32 },
}

fn is_zone_count(zones: u64) -> bool
    ensures { IsTrue result ↔ IsZoneCount zones }
{
    zones >= ZONES_LEAST as u64 && zones <= ZONES_MOST as u64
}

// The zones that a word asks for.
fn zone_count(word: &str) -> Option<u32>
    ensures { MatchOption result ((zones : ℕ) → IsZoneCount zones → word.now ≡ decimal zones → ⊥) (λ zones. IsZoneCount zones × (word.now ≡ decimal zones)) }
{
    let Some(zones) = parse_decimal(word) else {
        return None;
    };
    if !is_zone_count(zones) {
        return None;
    }
    Some(zones as u32)
}

/// What the words of a command line ask for, without the program's name: one row for each command. None
/// exactly where they ask for nothing.
pub fn read_words(words: &[String]) -> Option<Request>
    ensures { MatchOption result (AsksNothing (map string_bytes words.now)) (λ request. Asks (map string_bytes words.now) request) }
{
    let [command, _image, arguments @ ..] = words else {
        return None;
    };
    match (command.as_str(), arguments) {
        ("format", [zones]) => {
            let zones = zone_count(zones.as_str())?;
            Some(Request::Format { zones })
        }
        _ => None,
    }
}

/// A law: the words of a command line ask for one thing at most.
pub fn command_line_law()
    ensures { (words : List (List ℕ)) (a b : Request) → Asks words a → Asks words b → a ≡ b }
{}
