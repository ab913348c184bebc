use thiserror::Error;

/// What is wrong with a name, the first that holds in this order.
#[derive(Clone, Copy, Debug, PartialEq, Eq, Error)]
pub enum NameFault {
    /// It has no byte.
    #[error("the name is empty")]
    Empty,
    /// It has more than 255 bytes: so many.
    #[error("the name has {0} bytes")]
    Long(usize),
    /// It has a slash.
    #[error("the name has a slash")]
    Slash,
    /// It has a zero byte.
    #[error("the name has a zero byte")]
    Zero,
    /// It is `.` or `..`.
    #[error("the name is one or two dots")]
    Dot,
}
