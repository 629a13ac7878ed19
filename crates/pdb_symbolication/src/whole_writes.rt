//! Writes complete texts. If the writer refuses a part, a beginning is known to be written.

ghost use Rattle.std.specs.Prelude.{◌≡◌, ◌≤◌, drop, length};
ghost use Rattle.pdb_symbolication.specs.Writes.{Writes};
ghost use Rattle.pdb_symbolication.specs.JsonObjects.{comma_before};

use std::io;

/// Writes all these bytes.
///
/// # Errors
///
/// The writer's error. A beginning of the bytes was then written.
pub fn write_whole<W: io::Write>(out: &mut W, bytes: &[u8]) -> io::Result<()>
    ensures { Writes (W.contents out.old) (W.contents out.new) result bytes.now }
{
    let mut rest = bytes;
    for _ in 0..u64::MAX {
        if rest.is_empty() {
            return Ok(());
        }
        match out.write(rest) {
            Ok(0) => return Err(io::Error::from(io::ErrorKind::WriteZero)),
            Ok(count) => rest = after(rest, count),
            Err(error) if error.kind() == io::ErrorKind::Interrupted => {}
            Err(error) => return Err(error),
        }
    }
    Err(io::Error::from(io::ErrorKind::Interrupted))
}

fn after(bytes: &[u8], count: usize) -> &[u8]
    requires { count ≤ length bytes.now }
    ensures { result.now ≡ drop count bytes.now }
{
    &bytes[count..]
}

/// Writes the comma before a value, unless the value is the first.
pub(crate) fn write_comma<W: io::Write>(out: &mut W, first: bool) -> io::Result<()>
    ensures { Writes (W.contents out.old) (W.contents out.new) result (comma_before first) }
{
    if first {
        return Ok(());
    }
    write_whole(out, b",")
}
