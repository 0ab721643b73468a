// The two equations of a line, solved: for the bytes at two erasures, and for the place of one error. Every public function is total, and
// exact for every reduction byte.
#![tactic(auto)]

ghost use Rattle.std.specs.Prelude.{◌≡◌, [], ◌∷◌};
ghost use Rattle.solver.specs.Solver.{row0, row1, PlaceOutcome};
ghost use Rattle.solver.specs.Inner.Solver.{entry, inverted};

// The row of the inverted array that gives the byte at k. One erasure alone is the first syndrome.
pub fn second_row(reduction: u8, j: usize, k: usize) -> [u8; 2]
    ensures { result ≡ row0 reduction j k ∷ row1 reduction j k ∷ [] }
{
    if j == k {
        return [1, 0];
    }
    let x = field::pow(reduction, j);
    let y = field::pow(reduction, k);
    let m = invert(reduction, [[1, 1], [x, y]]);
    m[1]
}

// The inverse of the array m, rows first; where its determinant is 0, all 0. No Option: `second_row` is exact for every reduction byte, and `row0` and
// `row1` have 0 there.
fn invert(reduction: u8, m: [[u8; 2]; 2]) -> [[u8; 2]; 2]
    ensures { result ≡ inverted reduction (entry m 0 0) (entry m 0 1) (entry m 1 0) (entry m 1 1) }
{
    let [[a, b], [c, d]] = m;
    let determinant = field::mul(reduction, a, d) ^ field::mul(reduction, b, c);
    let e = field::inverse(reduction, determinant);
    [
        [field::mul(reduction, e, d), field::mul(reduction, e, b)],
        [field::mul(reduction, e, c), field::mul(reduction, e, a)],
    ]
}

// The place of a single error on a line of length n with the syndromes v0 and v1, or none. They stand in two arrays, and are used together here alone.
#[tactic(auto, unfolding(crate::specs::Solver::PlaceOutcome))]
pub fn error_place(reduction: u8, v0: u8, v1: u8, n: usize) -> Option<usize>
    ensures { PlaceOutcome reduction v0 v1 n result }
{
    if v0 == 0 || v1 == 0 {
        return None;
    }
    search(reduction, v0, v1, n)
}

// The first place below n at which v0, multiplied by the power of α, is v1. No `position`: the product goes on from place to place.
fn search(reduction: u8, v0: u8, v1: u8, n: usize) -> Option<usize>
    requires { (v0 ≡ 0 → ⊥) × (v1 ≡ 0 → ⊥) }
    ensures { PlaceOutcome reduction v0 v1 n result }
{
    let mut p = v0;
    for j in 0..n {
        if p == v1 {
            return Some(j);
        }
        p = field::xtime(reduction, p);
    }
    None
}
