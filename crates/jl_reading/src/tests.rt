use super::*;
use std::test::*;

#[derive(Debug, PartialEq, Drop)]
enum Trial {
    Short(usize),
}

impl Fault for Trial {
    ghost use Rattle.std.specs.Prelude.{Some, refl};
    ghost use Rattle.jl_reading.specs.declared.tests.Trial.TheVariants.{Short};

    ghost told = { λ e. Some e };

    ghost short = { Short };

    ghost tells_short = { λ at. refl };

    fn short(at: usize) -> Trial {
        Trial::Short(at)
    }
}

#[test]
fn numbers(rt: HostRuntime) {
    let bytes = [1, 2, 3, 4, 5, 6, 7, 8, 9];
    assert_eq!(rt; byte_at::<Trial>(&bytes, 8), Ok((9, 9)));
    assert_eq!(rt; byte_at::<Trial>(&bytes, 9), Err(Trial::Short(9)));
    assert_eq!(rt; u16_at::<Trial>(&bytes, 1), Ok((0x0203, 3)));
    assert_eq!(rt; u16_at::<Trial>(&bytes, 8), Err(Trial::Short(8)));
    assert_eq!(rt; u32_at::<Trial>(&bytes, 5), Ok((0x0607_0809, 9)));
    assert_eq!(rt; u32_at::<Trial>(&bytes, 6), Err(Trial::Short(6)));
    assert_eq!(rt; u64_at::<Trial>(&bytes, 1), Ok((0x0203_0405_0607_0809, 9)));
    assert_eq!(rt; u64_at::<Trial>(&bytes, 2), Err(Trial::Short(2)));
}
