//! One try over HTTP.
#![tactic(auto)]

mod address;
mod body;
mod body_end;
mod body_fault;
mod cut;
mod dialer;
mod dialer_mem;
mod endings;
mod fetch;
mod fetched;
mod final_head;
mod head_lines;
mod header;
mod laws;
mod mem_asked;
mod mem_dial;
mod mem_line;
mod mem_reply;
mod mem_talk;
mod page;
mod piece;
mod reply_heads;
mod request;
mod resource;
mod room;
mod send;
mod share;
mod take_body;
mod take_reply;
mod turn;
mod window;

pub use address::leads_over_http;
pub use dialer::Dialer;
pub use dialer_mem::DialerMem;
pub use fetch::fetch_from;
pub use fetched::Fetched;
pub use header::Header;
pub use http_reply::PieceFault;
pub use laws::pages_are_fetched;
pub use page::Page;
pub use piece::Piece;
pub use turn::Turn;
