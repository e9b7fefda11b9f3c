//! A line of a case file: one of the script, or one that says something of the case in a comment. Definitions:
//! `specs/Lines.antt`.

ghost use Rattle.std.specs.Prelude.{◌≡◌};
ghost use Rattle.h2_cmd_cases.specs.Lines.{expectation_said, is_marked, line_said, rest_said, said_by};

/// What a line of a case file says.
#[derive(Clone, Copy)]
pub enum Line<'t> {
    /// A line of the script; comments of any other text are such lines too.
    Script(&'t [u8]),
    /// `;# TITLE`: a case begins.
    Title(&'t [u8]),
    /// `;@ WORD..`: words of the command line for this case.
    Words(&'t [u8]),
    /// `;< LINE`: a frame that the server sends.
    Sent(&'t [u8]),
    /// `;= LINE`: a line of the state.
    Shown(&'t [u8]),
    /// `;! CAUSE`: why the item before is an error.
    Cause(&'t [u8]),
    /// `;? REASON`: why the item before is ignored.
    Reason(&'t [u8]),
    /// `;> LINE`: a line of `explain`.
    Explained(&'t [u8]),
    /// `;& COMMAND`: a command of `debug`.
    Command(&'t [u8]),
    /// A mark without the space after it, which is an error of the case; the whole line.
    Unspaced(&'t [u8]),
}

/// Whether a line begins with a semicolon and a mark.
fn is_marked(line: &[u8]) -> bool
    ensures { result ≡ is_marked line.now }
{
    line.starts_with(b";#".as_slice())
        || line.starts_with(b";@".as_slice())
        || line.starts_with(b";<".as_slice())
        || line.starts_with(b";=".as_slice())
        || line.starts_with(b";!".as_slice())
        || line.starts_with(b";?".as_slice())
        || line.starts_with(b";>".as_slice())
        || line.starts_with(b";&".as_slice())
}

/// A line of the script, unless it begins with a mark.
fn rest_of(line: &[u8]) -> Line<'_>
    ensures { said_by result ≡ rest_said line.now }
{
    if is_marked(line) {
        Line::Unspaced(line)
    } else {
        Line::Script(line)
    }
}

/// What a line expects; any other line is one of the script, or lacks the space after its mark.
fn expectation_of(line: &[u8]) -> Line<'_>
    ensures { said_by result ≡ expectation_said line.now }
{
    if let Some(text) = line.strip_prefix(b";< ".as_slice()) {
        return Line::Sent(text);
    }
    if let Some(text) = line.strip_prefix(b";= ".as_slice()) {
        return Line::Shown(text);
    }
    if let Some(text) = line.strip_prefix(b";! ".as_slice()) {
        return Line::Cause(text);
    }
    if let Some(text) = line.strip_prefix(b";? ".as_slice()) {
        return Line::Reason(text);
    }
    if let Some(text) = line.strip_prefix(b";> ".as_slice()) {
        return Line::Explained(text);
    }
    if let Some(text) = line.strip_prefix(b";& ".as_slice()) {
        return Line::Command(text);
    }
    rest_of(line)
}

/// What a line of a case file says.
#[tactic(auto, using(crate::proofs::LineLaws::script_is))]
pub fn line_of(line: &[u8]) -> Line<'_>
    ensures { said_by result ≡ line_said line.now }
{
    if line.strip_prefix(b";".as_slice()).is_none() {
        return Line::Script(line);
    }
    if let Some(text) = line.strip_prefix(b";# ".as_slice()) {
        return Line::Title(text);
    }
    if let Some(text) = line.strip_prefix(b";@ ".as_slice()) {
        return Line::Words(text);
    }
    expectation_of(line)
}
