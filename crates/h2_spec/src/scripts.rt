//! Why a line of a script is refused. Definitions: `specs/Texts/Script.antt`, `specs/Texts/Assemble.antt`.

/// What is wrong with a line of a script; where several are, the least is reported.
#[derive(Clone, Copy, Debug)]
pub enum SyntaxKind {
    /// The parts of a line: fewer than four, `PREFACE` with a space after it, or `RAW` without digits.
    Parts,
    /// The name of a frame type: none of the ten, and no `T` with two hex digits.
    Name,
    /// The flags: other than two hex digits.
    Flags,
    /// The stream: other than 0 to 2147483647 in 1 to 10 digits, with an `R` after it or not.
    Stream,
    /// The payload, or the digits of `RAW`: of no form.
    Payload,
    /// A payload of more than 16,777,215 octets.
    Size,
}
