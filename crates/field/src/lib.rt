// The field GF(256): addition by exclusive or, multiplication by shift and conditional reduction with masks, with no
// table and no branch on data. The reduction byte is a parameter, here and in the crates above up to `rows`: each function is exact for each of the
// 256 bytes, and the laws are over it. `reduction` is document 01's.
#![tactic(auto, unfolding(crate::specs::Field::add, crate::specs::Field::reduction))]

ghost use Rattle.std.specs.Prelude.{◌≡◌, ◌*◌, ◌%◌};
ghost use Rattle.field.specs.Field.{add, reduction, xtime, mul, pow, inverse};

// The polynomial of document 01 without its highest power.
pub fn reduction() -> u8
    ensures { result ≡ reduction }
{
    0xC3
}

// The sum of two elements, which is also their difference.
pub fn add(a: u8, b: u8) -> u8
    ensures { result ≡ add a b }
{
    a ^ b
}

// The product of a and the polynomial x.
pub fn xtime(reduction: u8, a: u8) -> u8
    ensures { result ≡ xtime reduction a }
{
    (a << 1) ^ (((a >> 7) * 255) & reduction)
}

// The product of two elements, which is the sum of it and of a product that is 0.
pub fn mul(reduction: u8, a: u8, b: u8) -> u8
    ensures { result ≡ mul reduction a b }
{
    dot(reduction, a, b, 0, 0)
}

// The sum of the products a b and c d, by one run over the bits of b and d together, from the highest.
pub fn dot(reduction: u8, a: u8, b: u8, c: u8, d: u8) -> u8
    ensures { result ≡ add (mul reduction a b) (mul reduction c d) }
{
    let mut p: u8 = 0;
    for i in (0..8u32).rev() {
        p = dot_step(reduction, p, a, b >> i, c, d >> i);
    }
    p
}

// The i-th power of α.
pub fn pow(reduction: u8, i: usize) -> u8
    ensures { result ≡ pow reduction i }
{
    let mut p: u8 = 1;
    for _ in 0..i {
        p = xtime(reduction, p);
    }
    p
}

// The inverse of a nonzero element, and 0 for 0: a to the power 254, by seven squares.
pub fn inverse(reduction: u8, a: u8) -> u8
    ensures { result ≡ inverse reduction a }
{
    let mut square = a;
    let mut product: u8 = 1;
    for _ in 0..7usize {
        square = mul(reduction, square, square);
        product = mul(reduction, product, square);
    }
    product
}

// One step of Horner's rule: the product of p and the polynomial x, and a and c added where the lowest bits of b and d are 1.
fn dot_step(reduction: u8, p: u8, a: u8, b: u8, c: u8, d: u8) -> u8
    ensures { result ≡ add (add ((b % 2) * a) ((d % 2) * c)) (xtime reduction p) }
{
    masked(a, b) ^ masked(c, d) ^ xtime(reduction, p)
}

// a where the lowest bit of `bits` is 1, and else 0.
fn masked(a: u8, bits: u8) -> u8
    ensures { result ≡ (bits % 2) * a }
{
    a & ((bits % 2) * 255)
}
