// The public calls for hosts in C, C++ and Rust: `include/quotebox.h`.
#![tactic(auto)]

mod calls;
mod spreads;

pub use calls::{
    quotebox_judge, quotebox_list_gaps, quotebox_read_level1, quotebox_read_level2, quotebox_start,
    quotebox_take, quotebox_write_level1, quotebox_write_level2, quotebox_write_off,
};
pub use spreads::{
    quotebox_no_spreads, quotebox_read_spread1, quotebox_read_spread2, quotebox_write_spread1,
    quotebox_write_spread2,
};
