// How the case programs print: texts by `write!`, to standard output as it is, and a refusal by its number and its value.
use refusal::Refusal;
use std::fmt;
use std::fmt::{Display, Formatter};

// What printing comes to.
pub type Printed = fmt::Result;

// Standard output. It is no HostRuntime, whose errors rest on more of the C library; what cannot be written is lost.
#[derive(Clone, Copy)]
pub struct Output;

impl fmt::Write for Output {
    fn write_str(&mut self, s: &str) -> fmt::Result {
        io::write_all(1, s.as_bytes());
        Ok(())
    }
}

// A refusal as it is printed.
#[derive(Clone, Copy)]
pub struct Shown(pub Refusal);

impl Display for Shown {
    fn fmt<W: fmt::Write>(&self, f: &mut Formatter<W>) -> fmt::Result {
        write!(
            f,
            "{} {}",
            refusal::number_of(self.0),
            refusal::value_of(self.0)
        )
    }
}
