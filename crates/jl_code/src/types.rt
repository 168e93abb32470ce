//! What descriptors say of slots and of floats (JVMS 4.3).

ghost use Rattle.std.specs.Prelude.{◌≡◌, ◌<◌, ◌+◌, ◌^◌};
ghost use Rattle.std.specs.List.{list_any};
ghost use Rattle.jl_names.specs.Descriptors as types;
ghost use Rattle.jl_code.specs.References as words;

use jl_names::{BaseType, Descriptor, FieldType};

/// How many slots types take.
pub fn slots(all: &[FieldType]) -> usize
    ensures exact { result ≡ types.slots all.now }
    ensures few { result + 1 < 2 ^ 64 }
{
    let mut count = 0;
    let mut rest = all;
    while let [found, others @ ..] = rest {
        count += found.slots();
        rest = others;
    }
    count
}

/// Whether a type is `F` or `D`.
fn is_float(found: &FieldType) -> bool
    ensures { result ≡ words.is_float found.now }
{
    matches!(found.base, BaseType::Prim(b'F' | b'D')) && found.dims == 0
}

fn has_float_parameter(all: &[FieldType]) -> bool
    ensures { result ≡ list_any words.is_float all.now }
{
    all.iter().any(|found| is_float(found))
}

/// Whether a descriptor is that of a field `F` or `D`.
pub fn is_float_field(found: &Option<Descriptor>) -> bool
    ensures { result ≡ words.is_float_field found.now }
{
    match found {
        Some(Descriptor::Field(found)) => is_float(found),
        _ => false,
    }
}

/// Whether a descriptor has a parameter or a result `F` or `D`.
pub fn has_float(found: &Option<Descriptor>) -> bool
    ensures { result ≡ words.has_float found.now }
{
    match found {
        Some(Descriptor::Method { params, result }) => {
            has_float_parameter(params.as_slice()) || is_float_result(result)
        }
        _ => false,
    }
}

fn is_float_result(found: &Option<FieldType>) -> bool
    ensures { result ≡ words.is_float_result found.now }
{
    match found {
        Some(found) => is_float(found),
        None => false,
    }
}
