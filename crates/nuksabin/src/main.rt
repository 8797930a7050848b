//! Finds the elements of an XML file that meet path queries. Standard input has a line of rising cut places, the query lines,
//! an empty line, and the file, which is read in pieces cut at those places, from the last back.

#![tactic(auto)]

use session::print_of;
use std::io;
use std::io::Read;

fn main(rt: HostRuntime) -> io::Result<()> {
    let mut input = Vec::new(rt.alloc());
    rt.stdin().read_to_end(&mut input)?;
    let listing = print_of(rt.alloc(), input.as_slice())?;
    rt.print(listing.as_str())
}
