//! The printed names of namespaces, also of anonymous ones.

ghost use Rattle.std.specs.Prelude.{◌≡◌};
ghost use Rattle.pdb_type_texts.specs.Namespaces.{is_hash, is_anonymous, namespace_text};

// Whether a text is a 32-bit number in hexadecimal digits. A `+` may come before them.
fn is_hash(text: &str) -> bool
    ensures { result ≡ is_hash text.now }
{
    u32::from_str_radix(text, 16).is_ok()
}

// Whether this name is one that the compiler made for an anonymous namespace.
fn is_anonymous(name: &str) -> bool
    ensures { result ≡ is_anonymous name.now }
{
    match name.strip_prefix("?A0x") {
        Some(hash) => is_hash(hash),
        None => false,
    }
}

// The printed name of a namespace.
pub fn namespace_name(name: &str) -> &str
    ensures { result.now ≡ namespace_text name.now }
{
    if is_anonymous(name) {
        "`anonymous namespace'"
    } else {
        name
    }
}
