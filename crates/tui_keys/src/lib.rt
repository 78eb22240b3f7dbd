//! Decodes what a terminal sends into events. `KeyDecoder` takes one byte at a time. The table of the bytes sent
//! for each event is `Sent`, in specs/.
#![tactic(auto)]

mod bytes;
mod character;
mod escape;
mod event;
mod ground;
mod keys;
mod laws;
mod meaning;
mod paste;
mod plain;
mod sequence;

pub use event::{Event, Modifiers, Motion};
pub use keys::{Decoded, KeyDecoder, Numbers, PartialCharacter, Pending};
pub use laws::{event_laws, paste_laws, sending_laws};
