//! How packets lie in the bytes.

/// Which packets the bytes are.
#[derive(Clone, Copy, Debug, PartialEq, Eq)]
pub enum Framing {
    /// One undelimited packet: it is all of the bytes (RFC 6716, 3.2).
    Whole,
    /// A self-delimited packet, which tells where it ends (RFC 6716, Appendix B).
    SelfDelimited,
}
