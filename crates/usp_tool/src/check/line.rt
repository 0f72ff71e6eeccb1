//! A line of `check`.
ghost use Rattle.std.specs.Prelude.{◌≡◌};
ghost use Rattle.std.specs.Option.{option_copied};
ghost use Rattle.usp_tool.specs.Check.Line.{ask_at, ask_of, ask_with};

use usp_base::{MOMENT_BOUND, cut_at, read_number};
use usp_rules::Ask;

// The ask at a moment that is a number below 2^52, for a URI that is not empty.
fn ask_at<'a>(moment: &[u8], uri: &'a [u8], cookie: Option<&'a [u8]>) -> Option<Ask<'a>>
    ensures { result ≡ ask_at moment.now uri.now (option_copied cookie.entry) }
{
    if uri.is_empty() {
        return None;
    }
    let moment = read_number(moment, MOMENT_BOUND - 1)?;
    Some(Ask::new(uri, cookie, moment))
}

// The same with a token that is not empty.
fn ask_with<'a>(moment: &[u8], uri: &'a [u8], token: &'a [u8]) -> Option<Ask<'a>>
    ensures { result ≡ ask_with moment.now uri.now token.now }
{
    if token.is_empty() {
        return None;
    }
    ask_at(moment, uri, Some(token))
}

/// The ask of a line `MOMENT URI` or `MOMENT URI TOKEN`. None exactly where the line has another form.
pub fn ask_of(line: &[u8]) -> Option<Ask<'_>>
    ensures { result ≡ ask_of line.now }
{
    match cut_at(line, b' ') {
        None => None,
        Some((moment, rest)) => match cut_at(rest, b' ') {
            None => ask_at(moment, rest, None),
            Some((uri, token)) => match cut_at(token, b' ') {
                None => ask_with(moment, uri, token),
                Some(_) => None,
            },
        },
    }
}
