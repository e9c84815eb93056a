//! Why a reply has no result for its call, in either kind of channel.

use crate::kinds::HandleFault;
use thiserror::Error;

/// Why a reply has no result for its call, where tokio has no such error.
#[derive(Clone, Copy, Debug, PartialEq, Eq, Error)]
pub enum Refusal {
    /// The call's handle can't be used for it.
    #[error("{0}")]
    Handle(HandleFault),
    /// The channel has made all the handles that it may make.
    #[error("too many handles")]
    TooManyHandles,
    /// The call would wait.
    #[error("would wait")]
    Waits,
    /// The reply is to another call.
    #[error("reply of another call")]
    OtherCall,
}

/// Why a value wasn't sent, in either kind of channel.
#[derive(Clone, Copy, Debug, PartialEq, Eq, Error)]
pub enum SendError<V> {
    /// No receiver is alive. The value is returned.
    #[error("no receivers")]
    NoReceivers(V),
    /// The call was refused, or the reply isn't to a send.
    #[error("{0}")]
    Refused(Refusal),
}
