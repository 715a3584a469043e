// What became of a file that should be an image.
ghost use Rattle.std.specs.Prelude.{◌≡◌};
ghost use Rattle.pails.specs.Pails.{size_of};

// Why a file has no size that counts.
#[derive(Clone, Copy, Debug, PartialEq, Eq)]
pub enum NoImage {
    TooLong,
    Unread,
}

// The image's size from the bytes read into room for 65,536 and from one read after them: whether it found more, where it didn't fail.
pub fn size(got: usize, more: Option<bool>) -> Result<usize, NoImage>
    ensures { result ≡ size_of got more }
{
    match more {
        Some(false) => Ok(got),
        Some(true) if got == 65536 => Err(NoImage::TooLong),
        _ => Err(NoImage::Unread),
    }
}
