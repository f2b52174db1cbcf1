// Why a command is not done, and the line that is printed for it.
use std::alloc::AllocError;
use std::io;
use std::io::{ErrorKind, Write};
use window::Refusal;

#[derive(Drop)]
pub enum Failure {
    // The arguments are no command.
    Usage,
    CannotRead(String),
    CannotWrite(String),
    TooLong,
    Refused(Refusal),
    // Memory ran out, or the system gives no arguments.
    System(io::Error),
}

impl From<AllocError> for Failure {
    fn from(error: AllocError) -> Failure {
        Failure::System(io::Error::from(error))
    }
}

impl Failure {
    // Why there are no arguments: those that are no text count as wrong ones.
    pub fn of_arguments(error: io::Error) -> Failure {
        match error.kind() {
            ErrorKind::InvalidData => Failure::Usage,
            _ => Failure::System(error),
        }
    }

    // Prints the line of a failure. One of the system has none, and is handed on.
    pub fn print<W: Write>(self, out: &mut W) -> io::Result<()> {
        match self {
            Failure::Usage => print_usage(out),
            Failure::CannotRead(name) => cannot(out, "read", name.as_str()),
            Failure::CannotWrite(name) => cannot(out, "write", name.as_str()),
            Failure::TooLong => writeln!(out, "too long"),
            Failure::Refused(refusal) => report::print_refusal(out, refusal),
            Failure::System(error) => Err(error),
        }
    }
}

// Prints what cannot be done with a file.
fn cannot<W: Write>(out: &mut W, what: &str, name: &str) -> io::Result<()> {
    writeln!(out, "cannot {what} {name}")
}

fn print_usage<W: Write>(out: &mut W) -> io::Result<()> {
    writeln!(out, "usage: board deal|collect K IN OUT")
}
