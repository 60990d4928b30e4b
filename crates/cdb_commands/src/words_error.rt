use thiserror::Error;

/// Why option words give no options.
#[derive(Clone, Copy, Debug, PartialEq, Eq, Error)]
pub enum WordsError {
    /// Memory was refused.
    #[error("memory was refused")]
    Memory,
    /// The words aren't of their grammar.
    #[error("the words aren't of their grammar")]
    Usage,
}
