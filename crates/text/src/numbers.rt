// Decimals: one to five digits without a leading zero, read at a place of a text.
ghost use Rattle.printing.specs.Text.{decimal};
ghost use Rattle.text.specs.Inner.Numbers.{DigitOutcome, NumberOutcome};

// The number whose digits stand at a place: as many as there are, at most five, and a 0 by itself. What stands behind it is for the
// caller to ask.
pub(crate) fn number(text: &[u8], at: usize) -> Option<(usize, usize)>
    ensures { NumberOutcome decimal text.now at result }
{
    let first = digit(text, at)?;
    let mut end = at + 1;
    if first == 0 {
        return Some((0, end));
    }
    let mut v = first;
    // The number read so far says how long this goes on, and no index.
    while v < 10000 {
        let Some(d) = digit(text, end) else {
            return Some((v, end));
        };
        v = v * 10 + d;
        end += 1;
    }
    Some((v, end))
}

// The digit at a place.
fn digit(text: &[u8], at: usize) -> Option<usize>
    ensures { DigitOutcome text.now at result }
{
    let c = *text.get(at)?;
    c.is_ascii_digit().then(|| usize::from(c - b'0'))
}
