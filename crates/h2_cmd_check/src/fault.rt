//! Why a case is not played.

/// Why a case is not played.
#[derive(Clone, Copy, Debug, PartialEq, Eq)]
pub enum CaseFault {
    /// A limit or a setting is out of range (`Config::is_allowed`).
    BadConfig,
    /// Memory was refused.
    NoMemory,
}
