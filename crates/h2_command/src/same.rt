ghost use Rattle.std.specs.Prelude.{◌≡◌, ◌↔◌, IsTrue};
ghost use Rattle.h2_command.specs.Replies.{group_of, is_outside};

use crate::reply::Reply;
use h2_num::{Bytes, Names};
use h2_ref::Why;

/// What a reply carries.
#[derive(Clone, Copy)]
enum Group {
    Lists,
    Inodes,
    Numbers,
    Words,
    Outside,
}

fn same_names(a: &Names, b: &Names) -> bool
    ensures { IsTrue result ↔ (a.now ≡ b.now) }
{
    *a == *b
}

fn same_bytes(a: &Bytes, b: &Bytes) -> bool
    ensures { IsTrue result ↔ (a.now ≡ b.now) }
{
    *a == *b
}

fn same_why(a: Why, b: Why) -> bool
    ensures { IsTrue result ↔ (a ≡ b) }
{
    a == b
}

fn same_lists(a: &Reply, b: &Reply) -> bool
    ensures sound { IsTrue result → a.now ≡ b.now }
    ensures complete { group_of a.now ≡ Group.Lists → a.now ≡ b.now → IsTrue result }
{
    match a {
        Reply::List(x) => match b {
            Reply::List(y) => same_names(x, y),
            _ => false,
        },
        Reply::Pfs(x) => match b {
            Reply::Pfs(y) => same_names(x, y),
            _ => false,
        },
        Reply::Got(x) => match b {
            Reply::Got(y) => same_bytes(x, y),
            _ => false,
        },
        _ => false,
    }
}

fn same_inodes(a: &Reply, b: &Reply) -> bool
    ensures sound { IsTrue result → a.now ≡ b.now }
    ensures complete { group_of a.now ≡ Group.Inodes → a.now ≡ b.now → IsTrue result }
{
    match a {
        Reply::Dir { number, entries } => match b {
            Reply::Dir {
                number: n,
                entries: e,
            } => *number == *n && *entries == *e,
            _ => false,
        },
        Reply::File {
            number,
            links,
            size,
        } => match b {
            Reply::File {
                number: n,
                links: l,
                size: s,
            } => *number == *n && *links == *l && *size == *s,
            _ => false,
        },
        _ => false,
    }
}

fn same_numbers(a: &Reply, b: &Reply) -> bool
    ensures sound { IsTrue result → a.now ≡ b.now }
    ensures complete { group_of a.now ≡ Group.Numbers → a.now ≡ b.now → IsTrue result }
{
    match a {
        Reply::Handle(x) => match b {
            Reply::Handle(y) => *x == *y,
            _ => false,
        },
        Reply::Wrote(x) => match b {
            Reply::Wrote(y) => *x == *y,
            _ => false,
        },
        Reply::Bulk {
            seen,
            staged,
            freed,
        } => match b {
            Reply::Bulk {
                seen: n,
                staged: s,
                freed: f,
            } => *seen == *n && *staged == *s && *freed == *f,
            _ => false,
        },
        Reply::InUse(x) => match b {
            Reply::InUse(y) => *x == *y,
            _ => false,
        },
        _ => false,
    }
}

fn same_outside(a: &Reply, b: &Reply) -> bool
    ensures sound { IsTrue result → a.now ≡ b.now }
    ensures complete { group_of a.now ≡ Group.Outside → a.now ≡ b.now → IsTrue result }
{
    match a {
        Reply::Running(x) => match b {
            Reply::Running(y) => *x == *y,
            _ => false,
        },
        Reply::NoSpace { need, free } => match b {
            Reply::NoSpace { need: n, free: f } => *need == *n && *free == *f,
            _ => false,
        },
        Reply::Io { before, after } => match b {
            Reply::Io {
                before: x,
                after: y,
            } => *before == *x && *after == *y,
            _ => false,
        },
        Reply::BadBlock { place, why } => match b {
            Reply::BadBlock { place: p, why: w } => *place == *p && same_why(*why, *w),
            _ => false,
        },
        Reply::NoMemory => match b {
            Reply::NoMemory => true,
            _ => false,
        },
        _ => false,
    }
}

fn same_words(a: &Reply, b: &Reply) -> bool
    ensures sound { IsTrue result → a.now ≡ b.now }
    ensures complete { group_of a.now ≡ Group.Words → a.now ≡ b.now → IsTrue result }
{
    match a {
        Reply::Done => matches!(b, Reply::Done),
        Reply::NoEntry => matches!(b, Reply::NoEntry),
        Reply::Exists => matches!(b, Reply::Exists),
        Reply::NotDir => matches!(b, Reply::NotDir),
        Reply::IsDir => matches!(b, Reply::IsDir),
        Reply::NotEmpty => matches!(b, Reply::NotEmpty),
        Reply::Full => matches!(b, Reply::Full),
        Reply::LinksFull => matches!(b, Reply::LinksFull),
        Reply::Loop => matches!(b, Reply::Loop),
        Reply::NoPfs => matches!(b, Reply::NoPfs),
        Reply::NoHandle => matches!(b, Reply::NoHandle),
        Reply::HandlesFull => matches!(b, Reply::HandlesFull),
        Reply::Long => matches!(b, Reply::Long),
        _ => false,
    }
}

impl Reply {
    fn group(&self) -> Group
        ensures { result ≡ group_of self.now }
    {
        match self {
            Reply::List(_) | Reply::Pfs(_) | Reply::Got(_) => Group::Lists,
            Reply::Dir { .. } | Reply::File { .. } => Group::Inodes,
            Reply::Handle(_) | Reply::Wrote(_) | Reply::Bulk { .. } | Reply::InUse(_) =>
                Group::Numbers,
            Reply::Running(_)
            | Reply::NoSpace { .. }
            | Reply::Io { .. }
            | Reply::BadBlock { .. }
            | Reply::NoMemory => Group::Outside,
            _ => Group::Words,
        }
    }

    /// Whether the two replies are equal.
    pub fn is_same(&self, other: &Reply) -> bool
        ensures sound { IsTrue result → self.now ≡ other.now }
        ensures complete { self.now ≡ other.now → IsTrue result }
    {
        match self.group() {
            Group::Lists => same_lists(self, other),
            Group::Inodes => same_inodes(self, other),
            Group::Numbers => same_numbers(self, other),
            Group::Outside => same_outside(self, other),
            Group::Words => same_words(self, other),
        }
    }

    /// Whether this is a refusal from outside the forest.
    pub fn is_outside(&self) -> bool
        ensures { result ≡ is_outside self.now }
    {
        matches!(self.group(), Group::Outside)
    }
}
