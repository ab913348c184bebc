use h2_command::{Command, Path, Payload};
use h2_script::Script;

/// What was read or told, joined into one number, and how much that was.
#[derive(Clone, Copy)]
pub struct Tally {
    pub count: u64,
    pub joined: u64,
}

impl Tally {
    /// Nothing.
    pub fn new() -> Tally {
        Tally {
            count: 0,
            joined: 0,
        }
    }

    fn add(&mut self, value: u64) {
        self.joined = self.joined.rotate_left(5) ^ value;
    }

    /// Adds the bytes, and counts them.
    pub fn add_bytes(&mut self, bytes: &[u8]) {
        for byte in bytes {
            self.add(*byte as u64);
        }
        self.count = self.count.wrapping_add(bytes.len() as u64);
    }

    fn add_name(&mut self, name: &[u8]) {
        for byte in name {
            self.add(*byte as u64);
        }
    }

    fn add_path(&mut self, path: &Path) {
        self.add_name(path.pfs.as_slice());
        for name in path.names.items() {
            self.add_name(name.as_slice());
        }
    }

    fn add_payload(&mut self, payload: &Payload) {
        match payload {
            Payload::Plain(bytes) => self.add_name(bytes.as_slice()),
            Payload::Repeat { count, byte } => {
                self.add(*count as u64);
                self.add(*byte as u64);
            }
        }
    }

    fn add_command(&mut self, command: &Command) {
        match command {
            Command::Create(path) => self.add_path(path),
            Command::Ls(path) => self.add_path(path),
            Command::Mv(path, other) => {
                self.add_path(path);
                self.add_path(other);
            }
            Command::ReadAt { handle, off, len } => {
                self.add(*handle as u64);
                self.add(*off);
                self.add(*len as u64);
            }
            Command::WriteAt {
                handle,
                off,
                payload,
            } => {
                self.add(*handle as u64);
                self.add(*off);
                self.add_payload(payload);
            }
            _ => self.add(1),
        }
    }

    /// Adds the commands of the script, and counts them.
    pub fn add_script(&mut self, script: &Script) {
        for phase in 0..script.phases() {
            for i in 0..script.len(phase) {
                let (client, command) = script.at(phase, i);
                self.add(client as u64);
                self.add_command(command);
                self.count = self.count.wrapping_add(1);
            }
        }
    }
}
