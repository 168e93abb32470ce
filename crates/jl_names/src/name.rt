//! Which texts name classes, packages, fields and methods (JVMS 4.2).

ghost use Rattle.std.specs.Prelude.{◌≡◌, take};
ghost use Rattle.std.specs.List.{list_all, list_any};
ghost use Rattle.jl_names.specs.Names as names;
ghost use Rattle.jl_names.specs.Names.{stops};

/// Whether a text names a class or a package in internal form: nonempty parts with `/` between them, none
/// with `.`, `;` or `[`.
pub fn is_class_name(text: &[u8]) -> bool
    ensures { result ≡ names.names_a_class text.now }
{
    let mut is_begun = false;
    let mut rest = text;
    while let [byte, others @ ..] = rest {
        if stops_a_class(*byte, is_begun) {
            return false;
        }
        is_begun = *byte != b'/';
        rest = others;
    }
    is_begun
}

/// Whether a text names a field: it is not empty and has none of `.`, `;`, `[` and `/`.
pub fn is_field_name(text: &[u8]) -> bool
    ensures { result ≡ names.names_a_field text.now }
{
    !text.is_empty() && are_unqualified(text)
}

/// Whether a text names a method: as for a field, and with `<` or `>` only in `<init>` and `<clinit>`.
pub fn is_method_name(text: &[u8]) -> bool
    ensures { result ≡ names.names_a_method text.now }
{
    is_special(text) || (is_field_name(text) && !has_angle(text))
}

/// The package of a class name in internal form: what stands before its last `/`, or nothing.
#[tactic(auto, using(crate::proofs::NameLaws::package_step, crate::proofs::NameLaws::package_none))]
pub fn package_of(name: &[u8]) -> &[u8]
    ensures { result.now ≡ names.package_of name.now }
{
    let mut end = 0;
    for at in 0..name.len() {
        if name[at] == b'/' {
            end = at;
        }
    }
    &name[..end]
}

/// Whether no class name goes on with the byte, where its part has begun or not.
fn stops_a_class(byte: u8, is_begun: bool) -> bool
    ensures { result ≡ stops byte is_begun }
{
    is_reserved(byte) || (byte == b'/' && !is_begun)
}

fn are_unqualified(text: &[u8]) -> bool
    ensures { result ≡ list_all names.is_plain text.now }
{
    text.iter().all(|byte| is_plain(*byte))
}

fn is_plain(byte: u8) -> bool
    ensures { result ≡ names.is_plain byte }
{
    !is_reserved(byte) && byte != b'/'
}

fn has_angle(text: &[u8]) -> bool
    ensures { result ≡ list_any names.is_angle text.now }
{
    text.iter().any(|byte| is_angle(*byte))
}

fn is_reserved(byte: u8) -> bool
    ensures { result ≡ names.is_reserved byte }
{
    matches!(byte, b'.' | b';' | b'[')
}

fn is_angle(byte: u8) -> bool
    ensures { result ≡ names.is_angle byte }
{
    matches!(byte, b'<' | b'>')
}

fn is_special(text: &[u8]) -> bool
    ensures { result ≡ names.is_special text.now }
{
    text == b"<init>".as_slice() || text == b"<clinit>".as_slice()
}
