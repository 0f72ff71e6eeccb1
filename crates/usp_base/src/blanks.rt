//! Texts without the spaces and tabs at their ends.
ghost use Rattle.std.specs.Prelude.{◌≡◌, ◌||◌, ◌==◌};
ghost use Rattle.usp_base.specs.Blanks.{is_blank, trim_blanks, trim_end, trim_start};

fn is_blank(b: u8) -> bool
    ensures { result ≡ is_blank b }
{
    b == b' ' || b == b'\t'
}

fn trim_start(text: &[u8]) -> &[u8]
    ensures { result.now ≡ trim_start text.now }
{
    let mut rest = text;
    while let Some((first, more)) = rest.split_first() {
        if !is_blank(*first) {
            return rest;
        }
        rest = more;
    }
    rest
}

fn trim_end(text: &[u8]) -> &[u8]
    ensures { result.now ≡ trim_end text.now }
{
    let mut rest = text;
    while let Some((last, more)) = rest.split_last() {
        if !is_blank(*last) {
            return rest;
        }
        rest = more;
    }
    rest
}

/// The text without the spaces and tabs at both of its ends.
pub fn trim_blanks(text: &[u8]) -> &[u8]
    ensures { result.now ≡ trim_blanks text.now }
{
    trim_end(trim_start(text))
}
