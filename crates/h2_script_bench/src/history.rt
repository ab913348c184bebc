use h2_command::{Command, Entry, History, Item, Payload, Reply};
use h2_num::{Bytes, Name, Names, NoMemory};
use h2_script::Script;
use std::alloc::Global;

/// How many names a reply to `ls` has.
const LISTED: u32 = 64;

// So many bytes that differ.
fn bytes_of(alloc: Global, len: u32) -> Result<Bytes, NoMemory> {
    let mut bytes = Vec::with_capacity(alloc, len as usize)?;
    for i in 0..len {
        bytes.push((i % 256) as u8)?;
    }
    Ok(Bytes::from_vec(bytes))
}

fn names_of(alloc: Global) -> Result<Names, NoMemory> {
    let mut names = Names::new(alloc);
    for i in 0..LISTED {
        let name = format!(in alloc; "file-number-{i}")?;
        names.push(Name::from_slice(alloc, name.as_bytes())?)?;
    }
    Ok(names)
}

// How many bytes the payload is.
fn len_of(payload: &Payload) -> u32 {
    match payload {
        Payload::Plain(bytes) => u32::try_from(bytes.as_slice().len()).unwrap_or(u32::MAX),
        Payload::Repeat { count, .. } => *count,
    }
}

// A reply that the command may get.
fn reply_to(alloc: Global, command: &Command) -> Result<Reply, NoMemory> {
    let reply = match command {
        Command::ReadAt { len, .. } => Reply::Got(bytes_of(alloc, *len)?),
        Command::WriteAt { payload, .. } => Reply::Wrote(len_of(payload)),
        Command::Ls(_) => Reply::List(names_of(alloc)?),
        Command::Bulkfree => Reply::Bulk {
            seen: 2,
            staged: 1,
            freed: 0,
        },
        _ => Reply::Done,
    };
    Ok(reply)
}

/// A history of the script, whose commands come in its order.
pub fn history_of(alloc: Global, script: Script) -> Result<History, NoMemory> {
    let mut script = script;
    let mut history = History::new(alloc);
    let mut indices = [0u32; 8];
    for phase in 0..script.phases() {
        for i in 0..usize::MAX {
            if phase >= script.phases() || i >= script.len(phase) {
                break;
            }
            let (client, _) = script.at(phase, i);
            let command = script.take(phase, i);
            let reply = reply_to(alloc, &command)?;
            let mut index = 0;
            if let Some(next) = indices.get_mut(client as usize) {
                index = *next;
                *next = index.wrapping_add(1);
            }
            let phase = u32::try_from(phase).unwrap_or(u32::MAX);
            let entry = Entry {
                phase,
                client,
                index,
                command,
                reply,
            };
            history.push(Item::Call(entry))?;
        }
    }
    Ok(history)
}
