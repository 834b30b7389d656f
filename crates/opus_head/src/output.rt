//! What is played on a channel.

/// What is played on an output channel (RFC 7845, 5.1.1).
#[derive(Clone, Copy, Debug, PartialEq, Eq)]
pub enum Route {
    /// Nothing.
    Silence,
    /// A stream that isn't coupled.
    Mono {
        /// Index of the stream in a packet.
        stream: u8,
    },
    /// The left channel of a coupled stream.
    Left {
        /// Index of the stream in a packet.
        stream: u8,
    },
    /// The right channel of a coupled stream.
    Right {
        /// Index of the stream in a packet.
        stream: u8,
    },
    /// A sum over all decoded channels, by the factors of the matrix.
    Matrix,
}
