// What several programs print in the same way. None of them stops where standard output fails: a line that it does not take is lost.
#![tactic(auto)]

use std::fmt;

// A space and two hexadecimal digits for each byte.
#[derive(Clone, Copy)]
pub struct Hex<'a>(pub &'a [u8]);

impl<'a> fmt::Display for Hex<'a> {
    fn fmt<W: fmt::Write>(&self, f: &mut fmt::Formatter<W>) -> fmt::Result {
        for byte in self.0 {
            write!(f, " {byte:02x}")?;
        }
        Ok(())
    }
}

// A count with its unit, which is in the plural but for one.
#[derive(Clone, Copy)]
pub struct Counted<'a>(pub u32, pub &'a str);

impl<'a> fmt::Display for Counted<'a> {
    fn fmt<W: fmt::Write>(&self, f: &mut fmt::Formatter<W>) -> fmt::Result {
        let Counted(count, unit) = *self;
        let plural = if count == 1 { "" } else { "s" };
        write!(f, "{count} {unit}{plural}")
    }
}
