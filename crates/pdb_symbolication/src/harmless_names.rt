//! Checks whether a module's name can be that of a file in a folder, and leads nowhere else.

ghost use Rattle.std.specs.Prelude.{◌≡◌};
ghost use Rattle.std.specs.List.{list_all};
ghost use Rattle.pdb_symbolication.specs.HarmlessNames.{is_harmless, is_plain};

/// Whether a name, appended to a folder, is a file directly in it on any operating system.
///
/// ```
/// assert!(is_harmless_name("xul.pdb") && !is_harmless_name("../xul.pdb"));
/// ```
pub fn is_harmless_name(name: &str) -> bool
    ensures answer { result ≡ is_harmless name.now }
{
    if name == "" || name == "." || name == ".." {
        return false;
    }
    are_plain(name.as_bytes())
}

fn are_plain(bytes: &[u8]) -> bool
    ensures answer { result ≡ list_all is_plain bytes.now }
{
    for &byte in bytes {
        if !is_plain(byte) {
            return false;
        }
    }
    true
}

// Whether a byte is neither a separator of folders or drives nor a zero, which ends a path.
fn is_plain(byte: u8) -> bool
    ensures answer { result ≡ is_plain byte }
{
    !matches!(byte, b'/' | b'\\' | b':' | b'\0')
}
