//! The kinds of channels.

/// The kind of a channel.
#[derive(Clone, Copy, Debug, PartialEq, Eq)]
pub enum ChannelKind {
    /// A broadcast.
    Broadcast,
    /// A watch.
    Watch,
}
