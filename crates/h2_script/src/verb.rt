ghost use Rattle.std.specs.Prelude.{◌≡◌, MatchOption};
ghost use Rattle.h2_script.specs.Verbs.{verb_word, IsNoVerb};

/// The word of a command.
#[derive(Clone, Copy, Debug, PartialEq, Eq)]
pub enum Verb {
    Mkdir,
    Create,
    Link,
    Rm,
    Rmdir,
    Mv,
    Ls,
    Stat,
    Open,
    Close,
    Read,
    Write,
    Cut,
    Sync,
    Bulkfree,
    Snapshot,
    PfsCreate,
    PfsDelete,
    PfsList,
}

/// The command that the word is; None exactly where it is none.
pub fn read_verb(word: &str) -> Option<Verb>
    ensures { MatchOption result (IsNoVerb word.now) (λ verb. word.now ≡ verb_word verb) }
{
    match word {
        "mkdir" => Some(Verb::Mkdir),
        "create" => Some(Verb::Create),
        "link" => Some(Verb::Link),
        "rm" => Some(Verb::Rm),
        "rmdir" => Some(Verb::Rmdir),
        "mv" => Some(Verb::Mv),
        "ls" => Some(Verb::Ls),
        "stat" => Some(Verb::Stat),
        "open" => Some(Verb::Open),
        "close" => Some(Verb::Close),
        "read" => Some(Verb::Read),
        "write" => Some(Verb::Write),
        "cut" => Some(Verb::Cut),
        "sync" => Some(Verb::Sync),
        "bulkfree" => Some(Verb::Bulkfree),
        "snapshot" => Some(Verb::Snapshot),
        "pfs-create" => Some(Verb::PfsCreate),
        "pfs-delete" => Some(Verb::PfsDelete),
        "pfs-list" => Some(Verb::PfsList),
        _ => None,
    }
}
