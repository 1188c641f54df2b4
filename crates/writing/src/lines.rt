ghost use Rattle.std.specs.Prelude.{◌≡◌, ℕ, ◌<◌, List, [], ◌∷◌, ◌++◌, Some, OnOk, string_bytes};
ghost use Rattle.writing.specs.Write.{figures, octal, spaced, line};

use std::alloc::AllocError;
use std::fmt;

/// A line: its first number and the others in octal, with one space between and a newline after.
#[derive(Clone, Copy, Debug)]
pub struct OctalLine<'a> {
    pub first: u16,
    pub others: &'a [u16],
}

impl fmt::Display for OctalLine<'_> {
    ghost output = { λ l. Some (line l.first l.others.now) };

    fn fmt<W: fmt::Write>(&self, f: &mut fmt::Formatter<W>) -> fmt::Result {
        let OctalLine { first, others } = *self;
        write!(f, "{first:o}")?;
        for &n in others {
            write!(f, " {n:o}")?;
        }
        writeln!(f)
    }
}

impl OctalLine<'_> {
    /// Appends the line to a text. By `write!`, with `{:o}`, ten small numbers take four times as many instructions, and
    /// lines are most of what a report of many rows costs.
    pub fn append_to(self, out: &mut String) -> Result<(), AllocError>
        ensures { OnOk result (string_bytes out.new ≡ string_bytes out.old ++ line self.entry.first self.entry.others.now) }
    {
        add_line(out, self.first, self.others)
    }
}

/// Appends a line to a list of bytes: its first number and the others in octal, with one space between and a newline after.
pub fn put_line(out: &mut Vec<u8>, first: u16, others: &[u16]) -> Result<(), AllocError>
    ensures { OnOk result (out.new.items ≡ out.old.items ++ line first others.now) }
{
    add_line(out, first, others)
}

/// What a line is appended to: bytes, or a text, whose characters of seven bits are its bytes.
trait Bytes {
    ghost bytes: { Self → List ℕ };

    fn add(&mut self, byte: u8) -> Result<(), AllocError>
        requires { byte < 128 }
        ensures { OnOk result (bytes self.new ≡ bytes self.old ++ (byte ∷ [])) };
}

impl Bytes for Vec<u8> {
    ghost bytes = { λ v. v.items };

    fn add(&mut self, byte: u8) -> Result<(), AllocError> {
        self.push(byte)?;
        Ok(())
    }
}

impl Bytes for String {
    ghost bytes = { string_bytes };

    fn add(&mut self, byte: u8) -> Result<(), AllocError> {
        self.push(char::from(byte))
    }
}

/// The octal digits of a number, with no leading zero: none for 0.
fn put_digits<B: Bytes>(out: &mut B, n: u16) -> Result<(), AllocError>
    ensures { OnOk result (B.bytes out.new ≡ B.bytes out.old ++ figures n) }
{
    if n > 0 {
        put_digits(out, n / 8)?;
        out.add(b'0' + (n % 8) as u8)?;
    }
    Ok(())
}

/// A number in octal, with no leading zero: one digit for 0.
fn put_octal<B: Bytes>(out: &mut B, n: u16) -> Result<(), AllocError>
    ensures { OnOk result (B.bytes out.new ≡ B.bytes out.old ++ octal n) }
{
    if n == 0 {
        out.add(b'0')?;
    } else {
        put_digits(out, n)?;
    }
    Ok(())
}

/// Numbers in octal, with a space before each.
fn put_spaced<B: Bytes>(out: &mut B, numbers: &[u16]) -> Result<(), AllocError>
    ensures { OnOk result (B.bytes out.new ≡ B.bytes out.old ++ spaced numbers.now) }
{
    for n in numbers {
        out.add(b' ')?;
        put_octal(out, *n)?;
    }
    Ok(())
}

fn add_line<B: Bytes>(out: &mut B, first: u16, others: &[u16]) -> Result<(), AllocError>
    ensures { OnOk result (B.bytes out.new ≡ B.bytes out.old ++ line first others.now) }
{
    put_octal(out, first)?;
    put_spaced(out, others)?;
    out.add(b'\n')?;
    Ok(())
}
