// The calls in the field.
ghost use Rattle.std.specs.Prelude.{◌≡◌};
ghost use Rattle.field.specs.Field.{reduction, mul, pow, inverse};

// The product of two bytes in the field.
#[unsafe(no_mangle)]
pub extern "C" fn jibrufath_mul(a: u8, b: u8) -> u8
    ensures { result ≡ mul reduction a b }
{
    field::mul(field::reduction(), a, b)
}

// The byte whose product with a is 01h; 00h for 00h.
#[unsafe(no_mangle)]
pub extern "C" fn jibrufath_inverse(a: u8) -> u8
    ensures { result ≡ inverse reduction a }
{
    field::inverse(field::reduction(), a)
}

// 02h to the i-th.
#[unsafe(no_mangle)]
pub extern "C" fn jibrufath_pow(i: u8) -> u8
    ensures { result ≡ pow reduction i }
{
    field::pow(field::reduction(), usize::from(i))
}
