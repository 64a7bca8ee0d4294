//! Foxglovepeg for C: a worker of far_pool, its objects by handles of 64 bits, and a map of far_dict. `c_api/include/foxglovepeg.h` tells each call in words of C.
#![tactic(auto)]

mod calls;
mod handle;
mod map_calls;
mod map_handle;
mod map_opening;
mod map_sealed;
mod opening;
mod parts;
mod sealed;
mod statistics;
mod status;
