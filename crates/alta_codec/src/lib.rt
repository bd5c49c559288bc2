//! What all layers share: locations, numbers in bytes and in decimal digits, owned bytes and text, names, extents, a search in a rising list,
//! the answer of a failed call, and the counter of steps.
#![tactic(auto)]

mod buffer;
mod bytes;
mod decimal;
mod extent;
mod failed;
mod form;
mod gallop;
mod len;
mod listed;
mod location;
mod name;
mod number;
mod steps;
mod text;

pub use buffer::zeros;
pub use bytes::Bytes;
pub use decimal::read_count;
pub use extent::Extent;
pub use failed::Failed;
pub use form::Form;
pub use gallop::{index_from, near_from};
pub use len::Len;
pub use listed::Listed;
pub use location::{DocNumber, Loc, TOP};
pub use name::name_ok;
pub use number::{CodeFault, get_number, numbers_read_back, put_number};
pub use steps::Steps;
pub use text::Text;
