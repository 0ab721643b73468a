// Lines: both syndromes of many neighbouring lines at once, erasures filled in, codewords written and recognised, single errors
// corrected. Every public function is total, and exact for every reduction byte, which stays a parameter: the laws are over it. A bool says
// whether the runs lay inside: there is one way to fail, and each caller knows before that they do. A slice and its run stay two parameters: once a
// method lends the slice that its struct holds, no more than the slice's length is known. So `Inside`, `Feeds` and `Room` name what is asked of both.
#![tactic(auto)]

mod block;
mod corrector;
mod encoder;
mod narrow;
mod strips;
mod wide;

ghost use Rattle.std.specs.Prelude.{◌≡◌};
ghost use Rattle.line.specs.Run.{erasures_at, SolveRun, EncodeRun, CheckRun, CorrectRun, Inside};
ghost use Rattle.span.specs.Decision.{Decides};

// Neighbouring lines of one length: place i of line t is the byte first + stride * i + t, for t below width.
#[derive(Clone, Copy)]
pub struct Run {
    pub first: usize,
    pub stride: usize,
    pub len: usize,
    pub width: usize,
}

// The erasures j ≤ k of each line of a run, one erasure where they are equal: both are written, the later last, so that no line branches on their number.
// With them the row [b, d] of the inverted array that gives
// the byte at k. Only `erasures_at` builds one, of any places: those of a run are told by `solve`. A run and its erasures stay two parameters:
// in one struct every use of theirs would be longer.
#[derive(Clone, Copy)]
pub struct Erasures {
    j: usize,
    k: usize,
    b: u8,
    d: u8,
}

// The erasures j and k: inverts their array once for all lines.
pub fn erasures_at(reduction: u8, j: u8, k: u8) -> Erasures
    ensures { result ≡ erasures_at reduction j k }
{
    let j = usize::from(j);
    let k = usize::from(k);
    let [b, d] = solver::second_row(reduction, j, k);
    Erasures { j, k, b, d }
}

// Fills in the erasures of every line of the run, whatever bytes stand there.
pub fn solve(s: &mut [u8], reduction: u8, run: Run, e: Erasures) -> bool
    ensures { SolveRun reduction run e s.old s.new result }
{
    if !inside(s.len(), run) || e.k < e.j || run.len <= e.k {
        return false;
    }
    block::solve_blocks(s, reduction, run, e);
    true
}

// Encodes lines: the data places of each line of `to` are the line of `from` in `data`, the last two places are parity.
pub fn encode(data: &[u8], s: &mut [u8], reduction: u8, from: Run, to: Run) -> bool
    ensures { EncodeRun reduction from to «data».now s.old s.new result }
{
    if !inside(s.len(), to) || !inside(data.len(), from) {
        return false;
    }
    if from.len + 2 != to.len || from.width != to.width {
        return false;
    }
    // There is no From of usize for u8; a run that lies inside has at most 255 places.
    let last = (to.len - 1) as u8;
    let e = erasures_at(reduction, last - 1, last);
    encoder::encode_blocks(data, s, reduction, from, to, e);
    true
}

// Whether every line of the run is a codeword.
pub fn codewords(s: &[u8], reduction: u8, run: Run) -> bool
    ensures { CheckRun reduction run s.now result }
{
    inside(s.len(), run) && block::codeword_blocks(s, reduction, run)
}

// Corrects a single error in each line of the run.
pub fn correct(s: &mut [u8], reduction: u8, run: Run) -> bool
    ensures { CorrectRun reduction run s.old s.new result }
{
    if !inside(s.len(), run) {
        return false;
    }
    corrector::correct_blocks(s, reduction, run);
    true
}

// Whether the run lies inside n bytes. The quotient avoids a product that could wrap.
fn inside(n: usize, run: Run) -> bool
    ensures { Decides (Inside run n) result }
{
    (1..=255).contains(&run.len)
        && run.width <= run.stride
        && run.width <= n
        && run.first <= n - run.width
        && (run.len == 1 || run.stride <= (n - run.width - run.first) / (run.len - 1))
}
