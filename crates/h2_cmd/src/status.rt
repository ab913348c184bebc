ghost use Rattle.std.specs.Prelude.{◌≡◌};

/// How a run ends, and with which exit status.
#[derive(Clone, Copy, Debug, PartialEq, Eq)]
pub enum Status {
    /// 0: all is done.
    Done,
    /// 1: the words ask for nothing.
    Usage,
    /// 4: the sink failed.
    SinkFault,
    /// 5: the disk failed.
    DiskFault,
    /// 7: memory was wanting.
    NoMemory,
    /// 8: the image has a header already.
    AlreadyFormatted,
}

impl Status {
    ghost use Rattle.h2_cmd.specs.Status.{code_of};

    /// The exit status.
    pub fn code(self) -> u8
        ensures { result ≡ code_of self }
    {
        match self {
            Status::Done => 0,
            Status::Usage => 1,
            Status::SinkFault => 4,
            Status::DiskFault => 5,
            Status::NoMemory => 7,
            Status::AlreadyFormatted => 8,
        }
    }
}
