//! The call for C that returns the version of the library.
ghost use Rattle.std.specs.Prelude.{◌≡◌, pos};
ghost use Rattle.pdb_c.specs.LibraryVersion.{major, minor, patch, version_number};

/// Returns the version of the library as one number: the major number times a million, plus the minor number times a
/// thousand, plus the patch. Later versions have greater numbers.
#[unsafe(no_mangle)]
pub extern "C" fn limberlime_version_unchecked() -> i64
    ensures { result ≡ pos (version_number major minor patch) }
{
    2_000
}
