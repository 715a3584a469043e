// The arguments by place, with `--out FILE` left out wherever it stands.
ghost use Rattle.std.specs.Prelude.{◌≡◌};
ghost use Rattle.pails.specs.Pails.{argument_at, words_given};

// The argument at a place, counted as if `--out`, where there is one at `out`, and the word after it weren't there.
pub fn place(out: Option<usize>, i: usize) -> usize
    ensures { result ≡ argument_at out i }
{
    match out {
        Some(out) if out <= i => i.wrapping_add(2),
        _ => i,
    }
}

// How many words of a record the arguments have: 10, 16, or none where they are too few or too many.
pub fn words_given(count: usize, out: Option<usize>) -> Option<usize>
    ensures { result ≡ words_given count out }
{
    if out.is_some_and(|out| out.wrapping_add(1) == count) {
        return None;
    }
    if place(out, 13) == count {
        return Some(10);
    }
    if place(out, 19) == count {
        Some(16)
    } else {
        None
    }
}
