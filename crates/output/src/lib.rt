// The output side of a program: printing that stops no program. It goes through all that it has to print and ends as it would have, whatever becomes
// of what it prints. So its status tells nothing of its output.
#![tactic(auto)]

ghost use Rattle.std.specs.Prelude.{IsOk};

use std::fmt::Display;
use std::io;

// Prints as `to` does, and goes on where a write fails: each is tried, and what comes of it is dropped. That it is tried no contract can say: the
// programs' output is compared with their `stdout`.
#[derive(Drop)]
pub struct Onward<'a, R> {
    pub to: &'a R,
}

impl<R: Print> Print for Onward<'_, R> {
    fn print<D: Display + Drop>(&self, value: D) -> io::Result<()>
        ensures { IsOk result }
    {
        let _ = self.to.print(value);
        Ok(())
    }

    fn println<D: Display + Drop>(&self, value: D) -> io::Result<()>
        ensures { IsOk result }
    {
        let _ = self.to.println(value);
        Ok(())
    }

    fn write_all(&self, bytes: &[u8]) -> io::Result<()>
        ensures { IsOk result }
    {
        let _ = self.to.write_all(bytes);
        Ok(())
    }
}
