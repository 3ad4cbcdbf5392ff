//! The programs of docs/GUIDE.md, one module each, run one after another.
#![tactic(auto)]

mod address_pool;
mod address_sets;
mod admits;
mod in_json;
mod routes;
mod summary;

use std::io;

fn main(rt: HostRuntime) -> io::Result<()> {
    routes::run(&rt)?;
    summary::run(&rt)?;
    address_sets::run(&rt)?;
    address_pool::run(&rt)?;
    in_json::run(&rt)?;
    admits::run(&rt)
}
