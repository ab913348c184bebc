//! Scripts over a fresh forest.
use h2_command::{Command, Entry, History, Item, Reply};
use h2_forest::Forest;
use h2_script::{Script, parse, text};
use std::alloc::Global;
use std::test::Fail;

/// A forest that a script runs over, and what happened.
#[derive(Drop)]
pub struct Running {
    pub forest: Forest,
    pub history: History,
    next: Vec<u32>,
    /// The place of an entry that is to have a wrong reply.
    changed: Option<usize>,
}

/// The client and the command at a place of a script.
fn take(script: &mut Script, phase: usize, i: usize) -> Result<(u32, Command), Fail> {
    if phase >= script.phases() {
        return Err("no phase".into());
    }
    if i >= script.len(phase) {
        return Err("no command".into());
    }
    let (client, _) = script.at(phase, i);
    Ok((client, script.take(phase, i)))
}

fn commands_in(script: &Script, phase: usize) -> usize {
    if phase >= script.phases() {
        return 0;
    }
    script.len(phase)
}

/// The reply to a lawful command of a client below 8.
fn reply_to(
    alloc: Global,
    forest: &mut Forest,
    client: u32,
    command: &Command,
) -> Result<Reply, Fail> {
    if client >= 8 {
        return Err("no client".into());
    }
    if !command.is_lawful() {
        return Err("not lawful".into());
    }
    Ok(forest.apply(alloc, client, command).ok().ok_or("memory")?)
}

fn other_than(reply: &Reply) -> Reply {
    match reply {
        Reply::Done => Reply::NoEntry,
        _ => Reply::Done,
    }
}

/// The next index of a client.
fn count(next: &mut Vec<u32>, client: u32) -> Result<u32, Fail> {
    let place = next.get_mut(client as usize).ok_or("no client")?;
    let index = *place;
    *place = index.saturating_add(1);
    Ok(index)
}

impl Running {
    /// A forest over which nothing ran yet. The entry at `changed` is to get a wrong reply.
    pub fn over(alloc: Global, forest: Forest, changed: Option<usize>) -> Result<Running, Fail> {
        Ok(Running {
            forest,
            history: History::new(alloc),
            next: vec![in alloc; 0; 8]?,
            changed,
        })
    }

    fn call(
        &mut self,
        alloc: Global,
        phase: u32,
        client: u32,
        command: Command,
    ) -> Result<(), Fail> {
        let due = reply_to(alloc, &mut self.forest, client, &command)?;
        let index = count(&mut self.next, client)?;
        let place = self.history.items().len();
        let reply = if self.changed == Some(place) {
            other_than(&due)
        } else {
            due
        };
        let entry = Entry {
            phase,
            client,
            index,
            command,
            reply,
        };
        self.history.push(Item::Call(entry)).ok().ok_or("memory")?;
        Ok(())
    }

    fn phase(&mut self, alloc: Global, script: &mut Script, phase: usize) -> Result<(), Fail> {
        let number = u32::try_from(phase).ok().ok_or("too many phases")?;
        for i in 0..commands_in(script, phase) {
            let (client, command) = take(script, phase, i)?;
            self.call(alloc, number, client, command)?;
        }
        Ok(())
    }

    /// Runs a script, each phase in the order of its lines.
    pub fn run(&mut self, alloc: Global, lines: &str) -> Result<(), Fail> {
        let mut script = parse(alloc, lines.as_bytes()).ok().ok_or("refused")?;
        for phase in 0..script.phases() {
            self.phase(alloc, &mut script, phase)?;
        }
        Ok(())
    }

    /// The replies so far, as they are printed.
    pub fn told(&self, alloc: Global) -> Result<String, Fail> {
        let told = text(alloc, &self.history).ok().ok_or("memory")?;
        let mut bytes = Vec::new(alloc);
        bytes.extend_from_slice(told.as_slice())?;
        Ok(String::from_utf8(bytes).ok().ok_or("no text")?)
    }
}

/// A script that ran over a fresh forest. The entry at `changed` has a wrong reply.
pub fn run(alloc: Global, lines: &str, changed: Option<usize>) -> Result<Running, Fail> {
    let fresh = Forest::fresh(alloc).ok().ok_or("memory")?;
    let mut running = Running::over(alloc, fresh, changed)?;
    running.run(alloc, lines)?;
    Ok(running)
}

/// The replies to a script over a forest.
pub fn replies_over(alloc: Global, forest: Forest, lines: &str) -> Result<String, Fail> {
    let mut running = Running::over(alloc, forest, None)?;
    running.run(alloc, lines)?;
    running.told(alloc)
}

/// The replies to a script over a fresh forest.
pub fn replies(alloc: Global, lines: &str) -> Result<String, Fail> {
    replies_over(alloc, Forest::fresh(alloc).ok().ok_or("memory")?, lines)
}
