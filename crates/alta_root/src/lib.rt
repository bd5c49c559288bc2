//! The root of an index: two slots at the head of the disk, one of which counts, whole, in whatever a stop leaves.
#![tactic(auto)]

mod fault;
mod fields;
mod gaps;
mod laws;
mod places;
mod reading;
mod root;
mod spelling;
mod switching;

pub use fault::RootFault;
pub use gaps::{first_gap, greatest_gap};
pub use laws::{
    a_root_counts_on, a_root_reads_back, an_image_says_one_thing,
    gaps_are_the_first_and_the_longest, slots_are_two,
};
pub use places::{DOCUMENT_CELLS, FIELDS_BYTES, LAST_NEXT, LEVEL_BYTES, LEVELS, VERSION};
pub use reading::read_roots;
pub use root::{Root, Roots};
pub use switching::switch;
