//! HTTP/1.1 framing (RFC 9112) for one request and one reply a connection, whatever pieces the bytes
//! come in.
#![tactic(auto)]

mod answer;
mod ask;
mod count;
mod fed;
mod fields;
mod head;
pub mod laws;
mod machine;
mod refusal;
mod reply;
mod served;

pub use answer::{write_no_memory, write_refusal, write_response, write_response_head};
pub use ask::{read_request, request};
pub use fed::{ReplyFed, ReplyRefused};
pub use refusal::HttpRefusal;
pub use reply::Reply;
pub use served::{Served, give_up, refuse, respond};
