//! Small types that every crate shares: the answer of a poll, texts and lists that contracts see as lists, copies of lists,
//! lists for contracts alone, a value on the heap, and want of memory as an ordinary answer.
#![tactic(auto)]

mod boxed;
mod copies;
mod poll;
mod refusal;
mod seq;
mod text;
mod trail;
mod want;

pub use boxed::Boxed;
pub use copies::{TryClone, copy_all};
pub use poll::Poll;
pub use refusal::accepted;
pub use seq::{Bytes, Seq};
pub use text::Text;
pub use trail::Trail;
pub use want::{NoMemory, Want};
