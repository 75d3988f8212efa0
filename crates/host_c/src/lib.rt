// What a host links: each function of `host` under its own name, for C, C++ and Rust (`include/quotebox.h`).
#![tactic(auto)]

mod calls;
mod spreads;
