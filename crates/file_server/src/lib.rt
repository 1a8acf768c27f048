//! A server of the files below a folder, over HTTP/1.1, for tests: one connection after another, one reply each.
#![tactic(auto)]

mod asked;
mod byte_range;
mod cut;
mod numeral;
mod path;
mod reply;
mod request;
mod serving;

pub use asked::Asked;
pub use byte_range::ByteRange;
pub use numeral::number;
pub use path::file_path;
pub use reply::Reply;
pub use request::read_request;
pub use serving::serve;
