// The calls of storage and engine for any opening, so that both kinds of device, faults, partition lists
// and refusals can be held against the Rust. Records come from standard input (u32 body length, u16 kind,
// body); a line is printed for each. Its stored input and output were made by the Rust (oracle/).
// Kinds: 16 opens a storage and 17 an engine; 32 to 38 are calls on a storage; 1 to 5 calls on an engine
// (write, read, reset, packet, flags); 39 sets bytes of scratch, 40 looks.
#![tactic(auto)]

mod call;
mod kind;
mod lines;
mod opening;
mod session;

use crate::opening::Body;
use crate::session::Lab;
use engine::rooms::Rooms;
use record::print::Printer;
use std::io;

// replay's `main` is like it in its arrays, which have other lengths and stand in the program's frame.
fn main(rt: HostRuntime) -> io::Result<()> {
    let mut input = rt.stdin();
    let mut out = Printer::new(rt.stdout());
    let mut record = [0u8; 131072];
    let mut body = [0u8; 131072];
    let mut request = [0u8; 16384];
    let mut reply = [0u8; 16384];
    let mut chip = [0u8; 1048576];
    let mut buffer = [0u8; 1048576];
    let mut scratch = [0u8; 65536];
    let mut room = [0u8; 65536];
    let mut offsets = [0u64; 16384];
    let mut sizes = [0u64; 16384];
    let mut lens = [0u64; 16384];
    let mut lab = Lab {
        open: None,
        body: Body {
            bytes: &mut body,
            offsets: &mut offsets,
            sizes: &mut sizes,
            lens: &mut lens,
        },
        request: &mut request,
        rooms: Rooms {
            reply: &mut reply,
            chip: &mut chip,
            buffer: &mut buffer,
            scratch: &mut scratch,
        },
        room: &mut room,
    };
    record::run(&mut input, &mut out, &mut record, &mut lab)
}
